ghost use Rattle.std.specs.Prelude.{◌≡◌, IsTrue, OnOk};
ghost use Rattle.resource_schema.specs.SchemaRules.{are_rising};
ghost use Rattle.serde_json.specs.View.{members_view};
ghost use Rattle.resource_objects.specs.Objects.{put_unless_none, attribute_names, relationship_names};

use ident_rules::NoMemory;
use resource_schema::Schema;
use serde_json::{Map, Value, put};
use std::alloc::Global;

/// Puts an object as a member, and nothing where the object is empty.
pub fn put_unless_empty(
    members: &mut Map<String, Value>,
    alloc: Global,
    name: &str,
    inner: Map<String, Value>,
) -> Result<(), NoMemory>
    ensures { OnOk result (members_view members.new.entries ≡ put_unless_none name.now (members_view inner.entries) (members_view members.old.entries)) }
{
    if !inner.is_empty() {
        put(members, alloc, name, Value::Object(inner))?;
    }
    Ok(())
}

/// A law: the fields of a type stand in byte order of their names. It does nothing.
pub fn fields_rise(schema: &Schema, kind: u32)
    ensures attributes { IsTrue (are_rising (attribute_names schema.now kind)) }
    ensures relationships { IsTrue (are_rising (relationship_names schema.now kind)) }
{
    schema.kinds();
}
