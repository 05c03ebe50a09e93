//! The paths that the links of pages begin with.
ghost use Rattle.std.specs.Prelude.{◌≡◌, IfOk};
ghost use Rattle.store_model.specs.Document.{relationship_name};
ghost use Rattle.store_model.specs.Resource.{collection_path, related_path};

use ident_rules::{Key, NoMemory, Text};
use resource_schema::Schema;
use std::alloc::Global;

/// The path of a collection.
pub fn collection_path(alloc: Global, schema: &Schema, kind: u32) -> Result<Text, NoMemory>
    ensures { IfOk result (λ t. t ≡ collection_path schema.now kind) }
{
    let mut text = String::from_str(alloc, "/")?;
    text.push_str(schema.kind_name(kind))?;
    Ok(Text::from_string(text))
}

/// The name of a relationship.
fn relationship_name(schema: &Schema, kind: u32, rel: u32) -> &str
    ensures { result.now ≡ relationship_name schema.now kind rel }
{
    match schema.relationships_of(kind).get(rel as usize) {
        Some(relationship) => relationship.name.as_str(),
        None => "",
    }
}

/// The path of what a relationship of a resource leads to.
pub fn related_path(alloc: Global, schema: &Schema, key: &Key, rel: u32) -> Result<Text, NoMemory>
    ensures { IfOk result (λ t. t ≡ related_path schema.now key.now (relationship_name schema.now key.now.kind rel)) }
{
    let mut text = String::from_str(alloc, "/")?;
    text.push_str(schema.kind_name(key.kind))?;
    text.push_str("/")?;
    text.push_str(key.id.as_str())?;
    text.push_str("/")?;
    text.push_str(relationship_name(schema, key.kind, rel))?;
    Ok(Text::from_string(text))
}
