ghost use Rattle.std.specs.Prelude.{◌≡◌, IsTrue, refl, Some};
ghost use Rattle.ident_rules.specs.Name.{read_name, is_name, bad_name_place};

use crate::Id;
use crate::id::{ID_LIMIT, bad_place, id_of};
use std::marker::Model;

/// The name of a type or a field: 1 to `ID_LIMIT` letters, digits, `_` or `-`, with a letter or a digit first and last. A
/// rule of this project within the member names of JSON:API 1.1 ("Member Names").
#[derive(Clone, Copy, Debug)]
pub struct Name {
    text: Id,
}

impl Model for Name {
    ghost use Rattle.std.specs.Prelude.{List, ℕ, IsTrue};
    ghost use Rattle.ident_rules.specs.Name.{is_name};

    ghost Value = { List ℕ };

    ghost view = { λ n. n.text };

    ghost invariant = { λ n. IsTrue (is_name n.text) };

    ghost inverse = { λ text. record { text = text } };
}

/// Why a text is no name.
#[derive(Clone, Copy, Debug, PartialEq, Eq)]
pub enum NameFault {
    /// It has no byte.
    Empty,
    /// It has more than `ID_LIMIT` bytes.
    TooLong,
    /// At this place, from 0, stands the first byte that is no letter, digit, `_` or `-`, or that is `_` or `-` and
    /// stands first or last.
    BadByte(usize),
}

impl Name {
    /// The bytes of the name.
    pub fn bytes(&self) -> &[u8]
        ensures bytes { result.now ≡ self.now }
        ensures name { IsTrue (is_name self.now) }
    {
        self.text.bytes()
    }

    /// The name as a text.
    pub fn as_str(&self) -> &str
        ensures { result.now ≡ self.now }
    {
        self.text.as_str()
    }
}

/// The first place of a byte that no name has there.
fn bad_name_place(text: &[u8]) -> Option<usize>
    ensures { result ≡ bad_name_place text.now }
{
    let Some(first) = text.first() else {
        return None;
    };
    if !first.is_ascii_alphanumeric() {
        return Some(0);
    }
    if let Some(place) = bad_place(text) {
        return Some(place);
    }
    let last = text.len() - 1;
    if text[last].is_ascii_alphanumeric() {
        None
    } else {
        Some(last)
    }
}

/// Reads a name. Takes no memory. The faults are judged in the order of `NameFault`.
pub fn read_name(text: &str) -> Result<Name, NameFault>
    ensures { result ≡ read_name text.now }
{
    let text = text.as_bytes();
    if text.is_empty() {
        return Err(NameFault::Empty);
    }
    if text.len() > ID_LIMIT {
        return Err(NameFault::TooLong);
    }
    if let Some(place) = bad_name_place(text) {
        return Err(NameFault::BadByte(place));
    }
    Ok(Name { text: id_of(text) })
}
