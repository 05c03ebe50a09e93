ghost use Rattle.std.specs.Prelude.{◌≡◌, ◌<◌, ◌+◌, ◌^◌, ◌∷◌, [], length, take, drop, reverse, MatchOption, IfSome};
ghost use Rattle.std.specs.List.{list_any};
ghost use Rattle.httparse.specs.Grammar.{trim_ows, skip_ows};
ghost use Rattle.http_model.specs.Framings.{same_bytes, same_in_any_case, comma_parts, or_text, last_part};

// Whether two texts are equal.
pub fn same_bytes(a: &[u8], b: &[u8]) -> bool
    ensures { result ≡ same_bytes a.now b.now }
{
    a == b
}

// Whether two texts are equal in any case.
pub fn same_in_any_case(a: &[u8], b: &[u8]) -> bool
    ensures { result ≡ same_in_any_case a.now b.now }
{
    a.eq_ignore_ascii_case(b)
}

// The bytes without the spaces and tabs before them.
fn skip_ows(bytes: &[u8]) -> &[u8]
    ensures { result.now ≡ skip_ows bytes.now }
{
    let mut rest = bytes;
    while let [byte, tail @ ..] = rest {
        if *byte != b' ' && *byte != b'\t' {
            return rest;
        }
        rest = tail;
    }
    rest
}

// The bytes without the spaces and tabs behind them.
fn cut_ows(bytes: &[u8]) -> &[u8]
    ensures { result.now ≡ reverse (skip_ows (reverse bytes.now)) }
{
    let mut rest = bytes;
    while let [head @ .., byte] = rest {
        if *byte != b' ' && *byte != b'\t' {
            return rest;
        }
        rest = head;
    }
    rest
}

// The bytes without the spaces and tabs around them.
#[tactic(auto, unfolding(httparse::specs::Grammar::trim_ows))]
fn trim_ows(bytes: &[u8]) -> &[u8]
    ensures { result.now ≡ trim_ows bytes.now }
{
    cut_ows(skip_ows(bytes))
}

// Where the first comma stands, if there is one.
fn comma_at(bytes: &[u8]) -> Option<usize>
    ensures within { IfSome result (λ at. at < length bytes.now) }
    ensures fits { IfSome result (λ at. at + 1 < 2 ^ 64) }
    ensures parts { MatchOption result (comma_parts bytes.now ≡ bytes.now ∷ []) (λ at. comma_parts bytes.now ≡ take at bytes.now ∷ comma_parts (drop (at + 1) bytes.now)) }
{
    let mut at = 0;
    while at < bytes.len() {
        if bytes[at] == b',' {
            return Some(at);
        }
        at += 1;
    }
    None
}

/// The first text, or the second where the first is empty.
pub fn or_text<'a>(text: &'a [u8], other: &'a [u8]) -> &'a [u8]
    ensures { result.now ≡ or_text text.now other.now }
{
    if text.is_empty() { other } else { text }
}

/// The last part of a value that is not empty, without the spaces and tabs around it, or nothing.
pub fn last_part(value: &[u8]) -> &[u8]
    ensures { result.now ≡ last_part (comma_parts value.now) }
{
    let mut found: &[u8] = b"";
    let mut rest = value;
    'parts: while let Some(at) = comma_at(rest) {
        found = or_text(trim_ows(&rest[..at]), found);
        rest = &rest[at + 1..];
    }
    or_text(trim_ows(rest), found)
}

/// Whether a part of a value is that word, in any case and without the spaces and tabs around it.
pub fn has_part(value: &[u8], word: &[u8]) -> bool
    ensures { result ≡ list_any (λ o. same_in_any_case (trim_ows o) word.now) (comma_parts value.now) }
{
    let mut rest = value;
    'parts: while let Some(at) = comma_at(rest) {
        if same_in_any_case(trim_ows(&rest[..at]), word) {
            return true;
        }
        rest = &rest[at + 1..];
    }
    same_in_any_case(trim_ows(rest), word)
}
