ghost use Rattle.std.specs.Prelude.{◌≡◌, ◌<◌, ◌≤◌, IfOk, IfSome, length};
ghost use Rattle.resource_schema.specs.declared.kinds.TheConstants.{ATTRIBUTE_LIMIT, RELATIONSHIP_LIMIT};
ghost use Rattle.resource_schema.specs.Kinds.{number_of_attribute, number_of_relationship};

use crate::{AttrValue, Form};
use ident_rules::{List, Name, NoMemory};
use std::alloc::Global;

/// The most types of a schema.
pub const KIND_LIMIT: usize = 64;

/// The most attributes of a type.
pub const ATTRIBUTE_LIMIT: usize = 64;

/// The most relationships of a type.
pub const RELATIONSHIP_LIMIT: usize = 32;

/// A type of resources (JSON:API 1.1, "Resource Objects").
#[derive(Drop)]
pub struct Kind {
    /// Its name, as it stands in `type` and in paths.
    pub name: Name,
    /// Whether a client may choose the id of a new resource ("Client-Generated IDs").
    pub client_ids: bool,
    /// Its attributes, at most `ATTRIBUTE_LIMIT`, in byte order of their names.
    pub attributes: List<Attribute>,
    /// Its relationships, at most `RELATIONSHIP_LIMIT`, in byte order of their names.
    pub relationships: List<Relationship>,
}

/// An attribute of a type (JSON:API 1.1, "Attributes").
#[derive(Drop)]
pub struct Attribute {
    /// Its name among the fields of the type.
    pub name: Name,
    /// What values it has.
    pub form: Form,
    /// Whether it may be null.
    pub nullable: bool,
    /// What it is in a new resource that does not give it, where there is a default.
    pub default: Option<AttrValue>,
}

/// A relationship of a type (JSON:API 1.1, "Relationships").
#[derive(Clone, Copy)]
pub struct Relationship {
    /// Its name among the fields of the type.
    pub name: Name,
    /// Whether it is to-many.
    pub many: bool,
    /// The number of the type that it leads to.
    pub target: u32,
}

impl Attribute {
    /// An equal attribute. Its one error is want of memory.
    pub fn copy(&self, alloc: Global) -> Result<Attribute, NoMemory>
        ensures { IfOk result (λ a. a ≡ self.now) }
    {
        let default = match &self.default {
            Some(value) => Some(value.copy(alloc)?),
            None => None,
        };
        Ok(Attribute {
            name: self.name,
            form: self.form,
            nullable: self.nullable,
            default,
        })
    }
}

fn copy_attributes(alloc: Global, attributes: &[Attribute]) -> Result<List<Attribute>, NoMemory>
    ensures { IfOk result (λ l. l ≡ attributes.now) }
{
    let mut copies = Vec::with_capacity(alloc, attributes.len())?;
    for attribute in attributes {
        copies.push(attribute.copy(alloc)?)?;
    }
    Ok(List::from_vec(copies))
}

impl Kind {
    /// An equal type. Its one error is want of memory.
    pub fn copy(&self, alloc: Global) -> Result<Kind, NoMemory>
        ensures { IfOk result (λ k. k ≡ self.now) }
    {
        let relationships = Vec::from_slice(alloc, self.relationships.as_slice())?;
        Ok(Kind {
            name: self.name,
            client_ids: self.client_ids,
            attributes: copy_attributes(alloc, self.attributes.as_slice())?,
            relationships: List::from_vec(relationships),
        })
    }

    /// The number of the attribute of this name, from 0; None exactly where there is none. Takes no memory.
    pub fn attribute(&self, name: &str) -> Option<u32>
        requires few { length self.now.attributes ≤ ATTRIBUTE_LIMIT }
        ensures { result ≡ number_of_attribute self.now.attributes name.now }
    {
        match place_of_attribute(self.attributes.as_slice(), name) {
            Some(place) => Some(place as u32),
            None => None,
        }
    }

    /// The number of the relationship of this name, from 0; None exactly where there is none. Takes no memory.
    pub fn relationship(&self, name: &str) -> Option<u32>
        requires few { length self.now.relationships ≤ RELATIONSHIP_LIMIT }
        ensures { result ≡ number_of_relationship self.now.relationships name.now }
    {
        match place_of_relationship(self.relationships.as_slice(), name) {
            Some(place) => Some(place as u32),
            None => None,
        }
    }
}

fn place_of_attribute(attributes: &[Attribute], name: &str) -> Option<usize>
    ensures number { result ≡ number_of_attribute attributes.now name.now }
    ensures within { IfSome result (λ place. place < length attributes.now) }
{
    attributes
        .iter()
        .position(|attribute| attribute.name.as_str() == name)
}

fn place_of_relationship(relationships: &[Relationship], name: &str) -> Option<usize>
    ensures number { result ≡ number_of_relationship relationships.now name.now }
    ensures within { IfSome result (λ place. place < length relationships.now) }
{
    relationships
        .iter()
        .position(|relationship| relationship.name.as_str() == name)
}
