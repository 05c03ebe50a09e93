ghost use Rattle.std.specs.Prelude.{◌≡◌, ◌<◌, ◌+◌, ◌^◌, ◌&&◌, ◌==◌, ◌∷◌, [], IfSome, MatchOption, drop, length, take};
ghost use Rattle.std.specs.Iterator.{YieldsFirstRef, item_count};
ghost use Rattle.request_model.specs.declared.forms.Quoting.TheVariants.{Outside};
ghost use Rattle.request_model.specs.MediaTypes.{after_byte, is_outside, pieces_from, unquoted_pieces};
ghost use Rattle.media_types.specs.PiecesLeft.{IsCutAt, pieces_left};

use request_model::Quoting;

/// Where the byte behind this one stands (RFC 9110, section 5.6.4).
pub fn after_byte(at: Quoting, byte: u8) -> Quoting
    ensures { result ≡ after_byte at byte }
{
    match at {
        Quoting::Outside => {
            if byte == b'"' {
                Quoting::Within
            } else {
                Quoting::Outside
            }
        }
        Quoting::Within => {
            if byte == b'"' {
                Quoting::Outside
            } else if byte == b'\\' {
                Quoting::Escaped
            } else {
                Quoting::Within
            }
        }
        Quoting::Escaped => Quoting::Within,
    }
}

/// Outside of quoted strings.
pub fn is_outside(at: Quoting) -> bool
    ensures { result ≡ is_outside at }
{
    match at {
        Quoting::Outside => true,
        Quoting::Within => false,
        Quoting::Escaped => false,
    }
}

// A separator outside of quoted strings.
fn is_cut(at: Quoting, byte: u8, separator: u8) -> bool
    ensures { result ≡ (is_outside at && byte == separator) }
{
    is_outside(at) && byte == separator
}

// Where the first separator outside of quoted strings stands, if there is one, where the first byte stands so.
fn cut_at(first: Quoting, separator: u8, text: &[u8]) -> Option<usize>
    ensures within { IfSome result (λ place. place < length text.now) }
    ensures fits { IfSome result (λ place. place + 1 < 2 ^ 64) }
    ensures pieces { MatchOption result (pieces_from first separator text.now ≡ text.now ∷ []) (IsCutAt first separator text.now) }
{
    let mut at = first;
    for (place, byte) in text.iter().enumerate() {
        if is_cut(at, *byte, separator) {
            return Some(place);
        }
        at = after_byte(at, *byte);
    }
    None
}

/// The pieces of a text between the separators that stand outside of quoted strings. Takes no memory.
#[derive(Drop)]
pub struct Pieces<'a> {
    separator: u8,
    at: Quoting,
    rest: Option<&'a [u8]>,
}

impl<'a> Pieces<'a> {
    /// The pieces of this text.
    pub fn new(separator: u8, text: &'a [u8]) -> Pieces<'a>
        ensures { pieces_left result ≡ unquoted_pieces separator text.now }
    {
        Pieces {
            separator,
            at: Quoting::Outside,
            rest: Some(text),
        }
    }
}

impl<'a> Iterator for Pieces<'a> {
    type Item = &'a [u8];

    ghost next_gives = { YieldsFirstRef pieces_left };

    ghost remaining = { item_count pieces_left };

    fn next(&mut self) -> Option<&'a [u8]> {
        let text = self.rest?;
        match cut_at(self.at, self.separator, text) {
            Some(place) => {
                self.at = after_byte(Quoting::Outside, self.separator);
                self.rest = Some(&text[place + 1..]);
                Some(&text[..place])
            }
            None => {
                self.rest = None;
                Some(text)
            }
        }
    }
}
