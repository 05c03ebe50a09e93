ghost use Rattle.std.specs.Prelude.{◌≡◌, IfOk, false};
ghost use Rattle.serde_json.specs.View.{view, members_view};
ghost use Rattle.serde_json.specs.Written.{has_float};
ghost use Rattle.store_model.specs.Resource.{resource};
ghost use Rattle.resource_objects.specs.Objects.{only_self, resource_parts};

use crate::attributes::attribute_members;
use crate::members::put_unless_empty;
use crate::paths::resource_path;
use crate::relationships::relationship_members;
use ident_rules::{List, Name, NoMemory};
use resource_schema::Schema;
use serde_json::{Map, Value, json, put};
use std::alloc::Global;
use task_forms::Query;
use world_cells::Row;

/// The links of a resource.
fn links_value(alloc: Global, path: &str) -> Result<Value, NoMemory>
    ensures { IfOk result (λ v. view v ≡ only_self path.now) }
{
    Ok(json!(in alloc; {"self": path})?)
}

/// A resource object of its parts: its attributes and its relationships are members where there are any.
fn resource_parts(
    alloc: Global,
    attributes: Map<String, Value>,
    id: &str,
    links: Value,
    relationships: Map<String, Value>,
    kind: &str,
) -> Result<Value, NoMemory>
    ensures { IfOk result (λ v. view v ≡ resource_parts (members_view attributes.entries) id.now (view links) (members_view relationships.entries) kind.now) }
{
    let mut members = Map::new(alloc);
    put_unless_empty(&mut members, alloc, "attributes", attributes)?;
    put(&mut members, alloc, "id", Value::try_from_str(alloc, id)?)?;
    put(&mut members, alloc, "links", links)?;
    put_unless_empty(&mut members, alloc, "relationships", relationships)?;
    put(
        &mut members,
        alloc,
        "type",
        Value::try_from_str(alloc, kind)?,
    )?;
    Ok(Value::Object(members))
}

/// The resource object of a row, with the fields that are shown.
fn resource(
    alloc: Global,
    schema: &Schema,
    row: &Row,
    fields: &[(u32, List<Name>)],
) -> Result<Value, NoMemory>
    ensures { IfOk result (λ v. view v ≡ resource schema.now row.now fields.now) }
{
    let attributes = attribute_members(alloc, schema, row, fields)?;
    let relationships = relationship_members(alloc, schema, row, fields)?;
    let path = resource_path(alloc, schema, &row.key)?;
    let links = links_value(alloc, path.as_str())?;
    let id = row.key.id.as_str();
    let kind = schema.kind_name(row.key.kind);
    resource_parts(alloc, attributes, id, links, relationships, kind)
}

/// The resource object of a row, with the fields that the query shows (JSON:API 1.1, "Resource Objects" and "Sparse
/// Fieldsets"): `attributes` and `relationships` are there where one is shown, and all members stand in byte order. It
/// holds no float, so it can be rendered. Its one error is want of memory.
pub fn resource_value(
    alloc: Global,
    schema: &Schema,
    row: &Row,
    query: &Query,
) -> Result<Value, NoMemory>
    ensures resource { IfOk result (λ v. view v ≡ resource schema.now row.now query.now.fields) }
    ensures plain { IfOk result (λ v. has_float (view v) ≡ false) }
{
    resource(alloc, schema, row, query.fields.as_slice())
}
