ghost use Rattle.std.specs.Prelude.{◌≡◌, ◌<◌, ◌≤◌, IfSome, length, option_copied, slice_get};
ghost use Rattle.resource_schema.specs.declared.kinds.TheConstants.{ATTRIBUTE_LIMIT, RELATIONSHIP_LIMIT};
ghost use Rattle.resource_schema.specs.Kinds.{attributes_of, relationships_of, kind_name, has_client_ids, attribute_of, relationship_of, target_of, is_many};

use crate::{Attribute, Kind, Relationship, Schema};

/// The type at a place.
fn nth_kind(kinds: &[Kind], place: u32) -> Option<&Kind>
    ensures { option_copied result ≡ slice_get kinds.now place }
{
    kinds.get(place as usize)
}

impl Schema {
    /// The type of that number, where there is one. Takes no memory.
    pub fn kind(&self, kind: u32) -> Option<&Kind>
        ensures kind { option_copied result ≡ slice_get self.now kind }
        ensures few { IfSome result (λ k. (length k.now.attributes ≤ ATTRIBUTE_LIMIT) × (length k.now.relationships ≤ RELATIONSHIP_LIMIT)) }
    {
        nth_kind(self.kinds(), kind)
    }

    /// The attributes of the type of that number; none where there is no such type. Takes no memory.
    pub fn attributes_of(&self, kind: u32) -> &[Attribute]
        ensures attributes { result.now ≡ attributes_of self.now kind }
        ensures few { length result.now ≤ ATTRIBUTE_LIMIT }
    {
        match self.kind(kind) {
            Some(kind) => kind.attributes.as_slice(),
            None => &[],
        }
    }

    /// The relationships of the type of that number; none where there is no such type. Takes no memory.
    pub fn relationships_of(&self, kind: u32) -> &[Relationship]
        ensures relationships { result.now ≡ relationships_of self.now kind }
        ensures few { length result.now ≤ RELATIONSHIP_LIMIT }
    {
        match self.kind(kind) {
            Some(kind) => kind.relationships.as_slice(),
            None => &[],
        }
    }

    /// The name of the type of that number; empty where there is no such type. Takes no memory.
    pub fn kind_name(&self, kind: u32) -> &str
        ensures { result.now ≡ kind_name self.now kind }
    {
        match self.kind(kind) {
            Some(kind) => kind.name.as_str(),
            None => "",
        }
    }

    /// Whether a client may choose the id of a new resource of that type ("Client-Generated IDs"). Takes no memory.
    pub fn has_client_ids(&self, kind: u32) -> bool
        ensures { result ≡ has_client_ids self.now kind }
    {
        match self.kind(kind) {
            Some(kind) => kind.client_ids,
            None => false,
        }
    }

    /// The number of the attribute of that name in the type of that number; None exactly where there is none. Takes no memory.
    pub fn attribute_of(&self, kind: u32, name: &str) -> Option<u32>
        ensures { result ≡ attribute_of self.now kind name.now }
    {
        self.kind(kind)?.attribute(name)
    }

    /// The number of the relationship of that name in the type of that number; None exactly where there is none. Takes no
    /// memory.
    pub fn relationship_of(&self, kind: u32, name: &str) -> Option<u32>
        ensures { result ≡ relationship_of self.now kind name.now }
    {
        self.kind(kind)?.relationship(name)
    }

    /// The number of the type that a relationship leads to; 0 where there is no such relationship. Takes no memory.
    pub fn target_of(&self, kind: u32, rel: u32) -> u32
        ensures { result ≡ target_of self.now kind rel }
    {
        match self.relationships_of(kind).get(rel as usize) {
            Some(relationship) => relationship.target,
            None => 0,
        }
    }

    /// Whether a relationship is to-many; false where there is no such relationship. Takes no memory.
    pub fn is_many(&self, kind: u32, rel: u32) -> bool
        ensures { result ≡ is_many self.now kind rel }
    {
        match self.relationships_of(kind).get(rel as usize) {
            Some(relationship) => relationship.many,
            None => false,
        }
    }
}
