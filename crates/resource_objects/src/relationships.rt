ghost use Rattle.std.specs.Prelude.{◌≡◌, IfOk, OnOk};
ghost use Rattle.serde_json.specs.View.{view, members_view};
ghost use Rattle.store_model.specs.Resource.{members_of, relationship_object, relationship_members};
ghost use Rattle.resource_objects.specs.Objects.{put_if, relationship_parts};

use crate::fields::is_shown;
use crate::linkages::linkage;
use crate::members::fields_rise;
use crate::paths::{related_path, relationship_path};
use ident_rules::{Key, List, Name, NoMemory};
use resource_schema::{Relationship, Schema};
use serde_json::{Map, Value, json, put};
use std::alloc::Global;
use world_cells::{Link, Row};

/// A relationship object of its parts.
fn relationship_parts(
    alloc: Global,
    linkage: Value,
    related: &str,
    own: &str,
) -> Result<Value, NoMemory>
    ensures { IfOk result (λ v. view v ≡ relationship_parts (view linkage) related.now own.now) }
{
    Ok(json!(in alloc; {"data": linkage, "links": {"related": related, "self": own}})?)
}

/// The object of a relationship: its linkage and its links (JSON:API 1.1, "Relationships").
fn relationship_object(
    alloc: Global,
    schema: &Schema,
    key: &Key,
    relationship: &Relationship,
    link: &Link,
) -> Result<Value, NoMemory>
    ensures { IfOk result (λ v. view v ≡ relationship_object schema.now key.now relationship.now link.now) }
{
    let name = relationship.name.as_str();
    let linkage = linkage(alloc, schema, relationship.target, link)?;
    let related = related_path(alloc, schema, key, name)?;
    let own = relationship_path(alloc, schema, key, name)?;
    relationship_parts(alloc, linkage, related.as_str(), own.as_str())
}

/// Puts a relationship as a member, if it is shown.
fn put_relationship(
    members: &mut Map<String, Value>,
    alloc: Global,
    schema: &Schema,
    key: &Key,
    shown: bool,
    relationship: &Relationship,
    link: &Link,
) -> Result<(), NoMemory>
    ensures { OnOk result (members_view members.new.entries ≡ put_if shown relationship.now.name (relationship_object schema.now key.now relationship.now link.now) (members_view members.old.entries)) }
{
    if shown {
        let value = relationship_object(alloc, schema, key, relationship, link)?;
        put(members, alloc, relationship.name.as_str(), value)?;
    }
    Ok(())
}

/// The members of the relationships that are shown (JSON:API 1.1, "Relationships").
pub fn relationship_members(
    alloc: Global,
    schema: &Schema,
    row: &Row,
    fields: &[(u32, List<Name>)],
) -> Result<Map<String, Value>, NoMemory>
    ensures { IfOk result (λ m. members_view m.entries ≡ members_of (relationship_members schema.now row.now fields.now)) }
{
    let kind = row.key.kind;
    fields_rise(schema, kind);
    let mut members = Map::new(alloc);
    let relationships = schema.relationships_of(kind);
    for (relationship, link) in relationships.iter().zip(row.links.as_slice()) {
        let shown = is_shown(fields, kind, relationship.name.as_str());
        match put_relationship(
            &mut members,
            alloc,
            schema,
            &row.key,
            shown,
            relationship,
            link,
        ) {
            Ok(()) => {}
            Err(NoMemory) => return Err(NoMemory),
        }
    }
    Ok(members)
}
