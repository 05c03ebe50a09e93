ghost use Rattle.std.specs.Prelude.{◌≡◌, IfOk};
ghost use Rattle.store_model.specs.Resource.{collection_path, resource_path, related_path, relationship_path};

use ident_rules::{Key, NoMemory, Text};
use resource_schema::Schema;
use std::alloc::Global;

/// The path of a type's collection, `/TYPE` (JSON:API 1.1, "Links"; the form of all paths is of this project). Its one
/// error is want of memory.
pub fn collection_path(alloc: Global, schema: &Schema, kind: u32) -> Result<Text, NoMemory>
    ensures { IfOk result (λ t. t ≡ collection_path schema.now kind) }
{
    let mut path = String::from_str(alloc, "/")?;
    path.push_str(schema.kind_name(kind))?;
    Ok(Text::from_string(path))
}

/// The path of a resource, `/TYPE/ID` ("Resource Links"). Its one error is want of memory.
pub fn resource_path(alloc: Global, schema: &Schema, key: &Key) -> Result<Text, NoMemory>
    ensures { IfOk result (λ t. t ≡ resource_path schema.now key.now) }
{
    let mut path = collection_path(alloc, schema, key.kind)?.into_string();
    path.push_str("/")?;
    path.push_str(key.id.as_str())?;
    Ok(Text::from_string(path))
}

/// The path of what a relationship leads to, `/TYPE/ID/REL` ("Related Resource Links"). Its one error is want of memory.
pub fn related_path(alloc: Global, schema: &Schema, key: &Key, rel: &str) -> Result<Text, NoMemory>
    ensures { IfOk result (λ t. t ≡ related_path schema.now key.now rel.now) }
{
    let mut path = resource_path(alloc, schema, key)?.into_string();
    path.push_str("/")?;
    path.push_str(rel)?;
    Ok(Text::from_string(path))
}

/// The path of a relationship itself, `/TYPE/ID/relationships/REL` ("Relationships"). Its one error is want of memory.
pub fn relationship_path(
    alloc: Global,
    schema: &Schema,
    key: &Key,
    rel: &str,
) -> Result<Text, NoMemory>
    ensures { IfOk result (λ t. t ≡ relationship_path schema.now key.now rel.now) }
{
    let mut path = resource_path(alloc, schema, key)?.into_string();
    path.push_str("/relationships/")?;
    path.push_str(rel)?;
    Ok(Text::from_string(path))
}
