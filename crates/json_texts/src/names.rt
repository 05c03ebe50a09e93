ghost use Rattle.std.specs.Prelude.{◌≡◌};
ghost use Rattle.json.specs.Print.{escape};

use ident_rules::{Id, Name};

/// An id as it stands in a string of JSON: it needs no escape.
pub fn id_text(id: &Id) -> &[u8]
    ensures { result.now ≡ escape id.now }
{
    id.bytes()
}

/// A name as it stands in a string of JSON: it needs no escape.
pub fn name_text(name: &Name) -> &[u8]
    ensures { result.now ≡ escape name.now }
{
    name.bytes()
}
