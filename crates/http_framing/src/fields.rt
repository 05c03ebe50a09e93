ghost use Rattle.std.specs.Prelude.{◌≡◌, length, not};
ghost use Rattle.std.specs.List.{list_any};
ghost use Rattle.httparse.specs.Grammar.{trim_ows};
ghost use Rattle.http_model.specs.Framings.{same_in_any_case, values_of, first_value, parts_of, last_part};

use crate::parts::{has_part, last_part, or_text, same_in_any_case};
use http_messages::Field;

/// How many fields have that name.
pub fn count_named(fields: &[Field], name: &[u8]) -> usize
    ensures { result ≡ length (values_of name.now fields.now) }
{
    let mut count = 0;
    for field in fields {
        if same_in_any_case(field.name.as_str().as_bytes(), name) {
            count += 1;
        }
    }
    count
}

/// The value of the first field of that name, or nothing.
pub fn first_named<'a>(fields: &'a [Field], name: &[u8]) -> &'a [u8]
    ensures { result.now ≡ first_value (values_of name.now fields.now) }
{
    for field in fields {
        if same_in_any_case(field.name.as_str().as_bytes(), name) {
            return field.value.as_slice();
        }
    }
    b""
}

/// The last part of all fields of that name that is not empty, or nothing.
pub fn last_part_named<'a>(fields: &'a [Field], name: &[u8]) -> &'a [u8]
    ensures { result.now ≡ last_part (parts_of (values_of name.now fields.now)) }
{
    let mut found: &[u8] = b"";
    for field in fields {
        if same_in_any_case(field.name.as_str().as_bytes(), name) {
            found = or_text(last_part(field.value.as_slice()), found);
        }
    }
    found
}

/// Whether a part of a field of that name is the word.
pub fn has_part_named(fields: &[Field], name: &[u8], word: &[u8]) -> bool
    ensures { result ≡ list_any (λ o. same_in_any_case (trim_ows o) word.now) (parts_of (values_of name.now fields.now)) }
{
    for field in fields {
        if same_in_any_case(field.name.as_str().as_bytes(), name)
            && has_part(field.value.as_slice(), word)
        {
            return true;
        }
    }
    false
}

/// Whether a field of that name has a value other than the word.
pub fn has_other_named(fields: &[Field], name: &[u8], word: &[u8]) -> bool
    ensures { result ≡ list_any (λ e. not (same_in_any_case e word.now)) (values_of name.now fields.now) }
{
    for field in fields {
        if same_in_any_case(field.name.as_str().as_bytes(), name)
            && !same_in_any_case(field.value.as_slice(), word)
        {
            return true;
        }
    }
    false
}
