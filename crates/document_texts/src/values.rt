ghost use Rattle.std.specs.Prelude.{◌++◌, codes};
ghost use Rattle.json_texts.specs.Drafts.{Adds};
ghost use Rattle.std.specs.Fmt.{signed_decimal};
ghost use Rattle.json.specs.Print.{quoted};
ghost use Rattle.serde_json.specs.Written.{compact_text};
ghost use Rattle.request_model.specs.Values.{value_data};

use json_texts::{TextDraft, add_escaped, add_int};
use resource_schema::AttrValue;

/// Goes on with the end of a name, and an integer.
fn add_integer(draft: &mut TextDraft, number: i64)
    ensures { Adds draft.old draft.new (codes "\":" ++ signed_decimal number) }
{
    draft.add(b"\":");
    add_int(draft, number);
}

/// Goes on with the end of a name, and a text.
fn add_text(draft: &mut TextDraft, text: &str)
    ensures { Adds draft.old draft.new (codes "\":" ++ quoted text.now) }
{
    draft.add(b"\":\"");
    add_escaped(draft, text.as_bytes());
    draft.add(b"\"");
}

/// Goes on with the end of a name, and the value of an attribute (JSON:API 1.1, "Attributes").
pub fn add_value(draft: &mut TextDraft, value: &AttrValue)
    ensures { Adds draft.old draft.new (codes "\":" ++ compact_text (value_data value.now)) }
{
    match value {
        AttrValue::Null => draft.add(b"\":null"),
        AttrValue::Int(number) => add_integer(draft, *number),
        AttrValue::Text(text) => add_text(draft, text.as_str()),
        AttrValue::Bool(true) => draft.add(b"\":true"),
        AttrValue::Bool(false) => draft.add(b"\":false"),
    }
}
