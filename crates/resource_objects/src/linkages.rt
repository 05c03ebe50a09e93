ghost use Rattle.std.specs.Prelude.{◌≡◌, IfOk, false};
ghost use Rattle.serde_json.specs.View.{view};
ghost use Rattle.serde_json.specs.Written.{has_float};
ghost use Rattle.resource_schema.specs.Kinds.{target_of};
ghost use Rattle.store_model.specs.Resource.{linkage};
ghost use Rattle.resource_objects.specs.Objects.{identifier_of, identifiers};

use ident_rules::{Id, NoMemory};
use resource_schema::Schema;
use serde_json::{Value, json};
use std::alloc::Global;
use world_cells::Link;

/// The identifier of a resource ("Resource Identifier Objects").
fn identifier(alloc: Global, schema: &Schema, kind: u32, id: &Id) -> Result<Value, NoMemory>
    ensures { IfOk result (λ v. view v ≡ identifier_of schema.now kind id.now) }
{
    let (id, kind) = (id.as_str(), schema.kind_name(kind));
    Ok(json!(in alloc; {"id": id, "type": kind})?)
}

/// The identifiers of resources of one type, in their order.
fn identifiers(alloc: Global, schema: &Schema, kind: u32, ids: &[Id]) -> Result<Value, NoMemory>
    ensures { IfOk result (λ v. view v ≡ identifiers schema.now kind ids.now) }
{
    let mut values = Vec::with_capacity(alloc, ids.len())?;
    for id in ids {
        values.push(identifier(alloc, schema, kind, id)?)?;
    }
    Ok(Value::Array(values))
}

/// The linkage of a link to resources of a type ("Resource Linkage").
pub fn linkage(alloc: Global, schema: &Schema, target: u32, link: &Link) -> Result<Value, NoMemory>
    ensures { IfOk result (λ v. view v ≡ linkage schema.now target link.now) }
{
    match link {
        Link::One(None) => Ok(Value::Null),
        Link::One(Some(id)) => identifier(alloc, schema, target, id),
        Link::Many(ids) => identifiers(alloc, schema, target, ids.as_slice()),
    }
}

/// The linkage of a relationship of a type, by their numbers: of a to-one link null or an identifier, of a to-many link
/// an array of identifiers in the stored order (JSON:API 1.1, "Resource Linkage"). It holds no float, so it can be
/// rendered. Its one error is want of memory.
pub fn linkage_value(
    alloc: Global,
    schema: &Schema,
    kind: u32,
    rel: u32,
    link: &Link,
) -> Result<Value, NoMemory>
    ensures linkage { IfOk result (λ v. view v ≡ linkage schema.now (target_of schema.now kind rel) link.now) }
    ensures plain { IfOk result (λ v. has_float (view v) ≡ false) }
{
    linkage(alloc, schema, schema.target_of(kind, rel), link)
}
