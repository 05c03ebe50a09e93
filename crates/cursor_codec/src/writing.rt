ghost use Rattle.std.specs.Prelude.{◌≡◌, IfOk, map};
ghost use Rattle.base64.specs.Engines.{url_safe_no_pad};
ghost use Rattle.base64.specs.GeneralPurpose.{encode_of};
ghost use Rattle.serde_json.specs.View.{view};
ghost use Rattle.request_model.specs.Cursors.{cursor_text, place_data};
ghost use Rattle.request_model.specs.Values.{value_data};

use base64::engine::general_purpose::URL_SAFE_NO_PAD;
use document_parts::write_value;
use ident_rules::{NoMemory, Text};
use json_forms::render;
use resource_schema::{AttrValue, Place};
use serde_json::Value;
use std::alloc::Global;

/// The sort values as JSON.
fn written_values(alloc: Global, values: &[AttrValue]) -> Result<Vec<Value>, NoMemory>
    ensures { IfOk result (λ v. map view v.items ≡ map value_data values.now) }
{
    let mut items = Vec::new(alloc);
    for value in values {
        items.push(write_value(alloc, value)?)?;
    }
    Ok(items)
}

/// A place as JSON: an array of the sort values and the id.
fn place_value(alloc: Global, place: &Place) -> Result<Value, NoMemory>
    ensures { IfOk result (λ v. view v ≡ place_data place.now) }
{
    let mut items = written_values(alloc, place.values.as_slice())?;
    items.push(Value::try_from_str(alloc, place.id.as_str())?)?;
    Ok(Value::Array(items))
}

/// Bytes in base64url without padding (RFC 4648, section 5).
fn encoded(alloc: Global, bytes: &[u8]) -> Result<Text, NoMemory>
    ensures { IfOk result (λ t. t ≡ encode_of url_safe_no_pad bytes.now) }
{
    let text = URL_SAFE_NO_PAD.encode(alloc, bytes)?;
    Ok(Text::from_string(text))
}

/// The cursor of a place: base64url without padding (RFC 4648, section 5) of the compact JSON array of its sort values
/// and its id. Of a place with values of given forms, `read_cursor` gives the place back. The one error is want of
/// memory.
pub fn write_cursor(alloc: Global, place: &Place) -> Result<Text, NoMemory>
    ensures { IfOk result (λ t. t ≡ cursor_text place.now) }
{
    let value = place_value(alloc, place)?;
    let text = render(alloc, &value)?;
    encoded(alloc, text.as_slice())
}
