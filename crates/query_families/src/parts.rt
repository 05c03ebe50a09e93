ghost use Rattle.std.specs.Prelude.{◌≡◌, ◌∷◌, [], MatchOption, length, nat_le};
ghost use Rattle.std.specs.Iterator.{YieldsFirstRef, item_count};
ghost use Rattle.request_model.specs.Queries.{listed};
ghost use Rattle.request_model.specs.Words.{parts_at};
ghost use Rattle.query_families.specs.PartsLeft.{byte_of, parts_left};

/// What stands between the parts of a text.
#[derive(Clone, Copy, Debug, PartialEq, Eq)]
pub enum Separator {
    /// A `,`.
    Comma,
    /// A `.`.
    Dot,
}

/// What stands before the first separator, and what stands behind it, where there is one.
fn cut(separator: Separator, text: &str) -> Option<(&str, &str)>
    ensures { MatchOption result (parts_at (byte_of separator) text.now ≡ text.now ∷ []) (λ p. parts_at (byte_of separator) text.now ≡ p.0.now ∷ parts_at (byte_of separator) p.1.now) }
{
    match separator {
        Separator::Comma => text.split_once(','),
        Separator::Dot => text.split_once('.'),
    }
}

/// The parts of a text between the separators. Takes no memory.
#[derive(Clone, Copy)]
pub struct Parts<'a> {
    separator: Separator,
    rest: Option<&'a str>,
}

impl<'a> Parts<'a> {
    /// The parts of this text; an empty text is one part.
    pub fn new(separator: Separator, text: &'a str) -> Parts<'a>
        ensures { parts_left result ≡ parts_at (byte_of separator) text.now }
    {
        Parts {
            separator,
            rest: Some(text),
        }
    }

    /// The texts between the commas; an empty text has none.
    pub fn listed(text: &'a str) -> Parts<'a>
        ensures { parts_left result ≡ listed text.now }
    {
        if text.is_empty() {
            Parts {
                separator: Separator::Comma,
                rest: None,
            }
        } else {
            Parts {
                separator: Separator::Comma,
                rest: Some(text),
            }
        }
    }
}

impl<'a> Iterator for Parts<'a> {
    type Item = &'a str;

    ghost next_gives = { YieldsFirstRef parts_left };

    ghost remaining = { item_count parts_left };

    fn next(&mut self) -> Option<&'a str> {
        let text = self.rest?;
        match cut(self.separator, text) {
            Some((part, behind)) => {
                self.rest = Some(behind);
                Some(part)
            }
            None => {
                self.rest = None;
                Some(text)
            }
        }
    }
}

/// Whether there are at most so many parts. What is past them is not looked at.
pub fn are_at_most(limit: usize, parts: Parts<'_>) -> bool
    ensures { result ≡ nat_le (length (parts_left parts.entry)) limit }
{
    let mut left = limit;
    for _part in parts {
        if left == 0 {
            return false;
        }
        left -= 1;
    }
    true
}
