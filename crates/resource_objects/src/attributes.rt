ghost use Rattle.std.specs.Prelude.{◌≡◌, IfOk, OnOk};
ghost use Rattle.serde_json.specs.View.{members_view};
ghost use Rattle.request_model.specs.Values.{value_data};
ghost use Rattle.store_model.specs.Resource.{members_of, attribute_members};
ghost use Rattle.resource_objects.specs.Objects.{put_if};

use crate::fields::is_shown;
use crate::members::fields_rise;
use document_parts::write_value;
use ident_rules::{List, Name, NoMemory};
use resource_schema::{AttrValue, Attribute, Schema};
use serde_json::{Map, Value, put};
use std::alloc::Global;
use world_cells::Row;

/// Puts an attribute as a member, if it is shown.
fn put_attribute(
    members: &mut Map<String, Value>,
    alloc: Global,
    shown: bool,
    attribute: &Attribute,
    value: &AttrValue,
) -> Result<(), NoMemory>
    ensures { OnOk result (members_view members.new.entries ≡ put_if shown attribute.now.name (value_data value.now) (members_view members.old.entries)) }
{
    if shown {
        let value = write_value(alloc, value)?;
        put(members, alloc, attribute.name.as_str(), value)?;
    }
    Ok(())
}

/// The members of the attributes that are shown (JSON:API 1.1, "Attributes").
pub fn attribute_members(
    alloc: Global,
    schema: &Schema,
    row: &Row,
    fields: &[(u32, List<Name>)],
) -> Result<Map<String, Value>, NoMemory>
    ensures { IfOk result (λ m. members_view m.entries ≡ members_of (attribute_members schema.now row.now fields.now)) }
{
    let kind = row.key.kind;
    fields_rise(schema, kind);
    let mut members = Map::new(alloc);
    let attributes = schema.attributes_of(kind);
    for (attribute, value) in attributes.iter().zip(row.values.as_slice()) {
        let shown = is_shown(fields, kind, attribute.name.as_str());
        match put_attribute(&mut members, alloc, shown, attribute, value) {
            Ok(()) => {}
            Err(NoMemory) => return Err(NoMemory),
        }
    }
    Ok(members)
}
