ghost use Rattle.std.specs.Prelude.{◌≡◌, [], IfOk, map};
ghost use Rattle.serde_json.specs.View.{view};
ghost use Rattle.ident_rules.specs.Id.{is_id};
ghost use Rattle.request_model.specs.Cursors.{place_from};
ghost use Rattle.request_model.specs.Words.{some_if};
ghost use Rattle.cursor_codec.specs.Places.{id_in, place_behind, place_in};

use document_parts::read_value;
use ident_rules::{Id, List, NoMemory, read_id};
use json_forms::text_of;
use resource_schema::{AttrValue, Form, Place};
use serde_json::Value;
use std::alloc::Global;

/// The id that a text is.
fn id_of(text: &str) -> Option<Id>
    ensures { result ≡ some_if (is_id text.now) text.now }
{
    read_id(text).ok()
}

/// The id that a value is.
fn id_in(value: &Value) -> Option<Id>
    ensures { result ≡ id_in (view value.now) }
{
    id_of(text_of(value)?)
}

/// The place of these values and the id that is the one item left.
fn place_at_end(values: List<AttrValue>, left: &[Value]) -> Option<Place>
    ensures { result ≡ place_behind values (place_from [] (map view left.now)) }
{
    let (last, more) = left.split_first()?;
    if !more.is_empty() {
        return None;
    }
    let id = id_in(last)?;
    Some(Place { values, id })
}

/// The place in the items of an array: one value of each form, and then an id.
fn place_from(
    alloc: Global,
    forms: &[(Form, bool)],
    items: &[Value],
) -> Result<Option<Place>, NoMemory>
    ensures { IfOk result (λ o. o ≡ place_from forms.now (map view items.now)) }
{
    let mut values = Vec::new(alloc);
    let mut left = items;
    for (form, nullable) in forms {
        let Some((item, behind)) = left.split_first() else {
            return Ok(None);
        };
        match read_value(alloc, *form, *nullable, item)? {
            Some(value) => values.push(value)?,
            None => return Ok(None),
        }
        left = behind;
    }
    Ok(place_at_end(List::from_vec(values), left))
}

/// The place in an array: one value of each form, and then an id.
pub fn place_in(
    alloc: Global,
    forms: &[(Form, bool)],
    value: &Value,
) -> Result<Option<Place>, NoMemory>
    ensures { IfOk result (λ o. o ≡ place_in forms.now (view value.now)) }
{
    match value.as_array() {
        Some(items) => place_from(alloc, forms, items),
        None => Ok(None),
    }
}
