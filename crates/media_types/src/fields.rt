ghost use Rattle.std.specs.Prelude.{◌≡◌};
ghost use Rattle.std.specs.Str.{str_eq_ignore_ascii_case};
ghost use Rattle.std.specs.Iterator.{YieldsFirstRef, item_count};
ghost use Rattle.request_model.specs.Negotiation.{field_values};
ghost use Rattle.media_types.specs.ValuesLeft.{values_left};

use crate::types::same_in_any_case;
use http_messages::Field;

// Whether a field has this name, in any case (RFC 9110, section 5.1).
fn is_of_name(name: &[u8], field: &Field) -> bool
    ensures { result ≡ str_eq_ignore_ascii_case field.now.name name.now }
{
    same_in_any_case(field.name.as_str().as_bytes(), name)
}

/// The values of the fields of one name, in order (RFC 9110, section 5.3). Takes no memory.
#[derive(Drop)]
pub struct Values<'a> {
    name: &'a [u8],
    fields: &'a [Field],
}

impl<'a> Values<'a> {
    /// The values of the fields of this name.
    pub fn new(name: &'a [u8], fields: &'a [Field]) -> Values<'a>
        ensures { values_left result ≡ field_values name.now fields.now }
    {
        Values { name, fields }
    }
}

impl<'a> Iterator for Values<'a> {
    type Item = &'a [u8];

    ghost next_gives = { YieldsFirstRef values_left };

    ghost remaining = { item_count values_left };

    fn next(&mut self) -> Option<&'a [u8]> {
        while let [field, others @ ..] = self.fields {
            self.fields = others;
            if is_of_name(self.name, field) {
                return Some(field.value.as_slice());
            }
        }
        None
    }
}
