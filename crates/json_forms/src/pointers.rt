ghost use Rattle.std.specs.Prelude.{◌≡◌, ◌++◌, IfOk, OnOk, string_bytes, encode_utf8};
ghost use Rattle.json_forms.specs.Pointer.{escape};

use ident_rules::{NoMemory, Text};
use std::alloc::Global;

/// A name as a part of a JSON pointer (RFC 6901, section 3): `~` is written `~0`, and `/` is written `~1`.
///
/// The one error is `NoMemory`.
pub fn escape_pointer(alloc: Global, name: &str) -> Result<Text, NoMemory>
    ensures { IfOk result (λ t. t ≡ escape name.now) }
{
    let mut text = String::new(alloc);
    for c in name.chars() {
        push_escaped(&mut text, c)?;
    }
    Ok(Text::from_string(text))
}

/// Writes one character of a name behind the text.
fn push_escaped(text: &mut String, c: char) -> Result<(), NoMemory>
    ensures { OnOk result (string_bytes text.new ≡ string_bytes text.old ++ escape (encode_utf8 c)) }
{
    match c {
        '~' => text.push_str("~0")?,
        '/' => text.push_str("~1")?,
        _ => text.push(c)?,
    }
    Ok(())
}
