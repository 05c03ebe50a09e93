ghost use Rattle.std.specs.Prelude.{◌≡◌, ◌<◌, IfOk, IfSome, is_some, length};
ghost use Rattle.std.specs.List.{list_all};
ghost use Rattle.resource_schema.specs.Kinds.{is_field, number_of_attribute, number_of_relationship};
ghost use Rattle.request_model.specs.Queries.{field_set_named};
ghost use Rattle.request_model.specs.Words.{some_if};
ghost use Rattle.query_families.specs.PartsLeft.{parts_left};

use crate::names::in_brackets;
use crate::parts::Parts;
use ident_rules::{List, Name, NoMemory};
use resource_schema::{Attribute, Relationship, Schema};
use std::alloc::Global;

/// Where the attribute stands that a text names.
fn place_of_attribute(attributes: &[Attribute], text: &str) -> Option<usize>
    ensures number { result ≡ number_of_attribute attributes.now text.now }
    ensures within { IfSome result (λ place. place < length attributes.now) }
{
    attributes
        .iter()
        .position(|attribute| attribute.name.as_str() == text)
}

/// The name of the attribute that a text names.
fn attribute_named(attributes: &[Attribute], text: &str) -> Option<Name>
    ensures { result ≡ some_if (is_some (number_of_attribute attributes.now text.now)) text.now }
{
    match place_of_attribute(attributes, text) {
        Some(place) => Some(attributes[place].name),
        None => None,
    }
}

/// Where the relationship stands that a text names.
fn place_of_relationship(relationships: &[Relationship], text: &str) -> Option<usize>
    ensures number { result ≡ number_of_relationship relationships.now text.now }
    ensures within { IfSome result (λ place. place < length relationships.now) }
{
    relationships
        .iter()
        .position(|relationship| relationship.name.as_str() == text)
}

/// The name of the relationship that a text names.
fn relationship_named(relationships: &[Relationship], text: &str) -> Option<Name>
    ensures { result ≡ some_if (is_some (number_of_relationship relationships.now text.now)) text.now }
{
    match place_of_relationship(relationships, text) {
        Some(place) => Some(relationships[place].name),
        None => None,
    }
}

/// The name of the field that a text names.
fn field_named(schema: &Schema, kind: u32, text: &str) -> Option<Name>
    ensures { result ≡ some_if (is_field schema.now kind text.now) text.now }
{
    match attribute_named(schema.attributes_of(kind), text) {
        Some(name) => Some(name),
        None => relationship_named(schema.relationships_of(kind), text),
    }
}

/// The names of fields of a type, where each text names one.
fn names_from(
    alloc: Global,
    schema: &Schema,
    kind: u32,
    texts: Parts<'_>,
) -> Result<Option<List<Name>>, NoMemory>
    ensures { IfOk result (λ o. o ≡ some_if (list_all (is_field schema.now kind) (parts_left texts.entry)) (parts_left texts.entry)) }
{
    let mut names = Vec::new(alloc);
    for text in texts {
        match field_named(schema, kind, text) {
            Some(name) => names.push(name)?,
            None => return Ok(None),
        }
    }
    Ok(Some(List::from_vec(names)))
}

/// Fields of the type in the brackets of `fields[..]` (JSON:API 1.1, "Sparse Fieldsets").
pub fn field_set_named(
    alloc: Global,
    schema: &Schema,
    name: &str,
    value: &str,
) -> Result<Option<(u32, List<Name>)>, NoMemory>
    ensures { IfOk result (λ o. o ≡ field_set_named schema.now name.now value.now) }
{
    let Some(inside) = in_brackets(name) else {
        return Ok(None);
    };
    let Some(kind) = schema.kind_of(inside) else {
        return Ok(None);
    };
    match names_from(alloc, schema, kind, Parts::listed(value))? {
        Some(names) => Ok(Some((kind, names))),
        None => Ok(None),
    }
}
