ghost use Rattle.std.specs.Prelude.{◌≡◌, ◌≤◌, IfOk, length, map, option_map};
ghost use Rattle.std.specs.List.{AllByRecursion};
ghost use Rattle.serde_json.specs.View.{view};
ghost use Rattle.request_model.specs.Words.{all_ok};
ghost use Rattle.request_model.specs.SchemaFile.{attribute_from, relationship_from, attributes_at, relationships_at, kind_from, schema_of, FieldNamesRise, SchemaNamesRise};
ghost use Rattle.schema_file.specs.Finds.{Finds};
ghost use Rattle.document_parts.specs.Walks.{members_in};
ghost use Rattle.schema_file.specs.Walks.{fields_in};
ghost use Rattle.resource_schema.specs.declared.kinds.TheConstants.{KIND_LIMIT};

use crate::SchemaEnd;
use crate::faults::fault;
use crate::fields::{read_attribute, read_relationship};
use crate::names::kind_name;
use crate::parts::{exceeds, fields_at, flag_in, is_empty, names_rise, object_at};
use document_parts::member_pointer;
use ident_rules::{List, NoMemory, Text};
use json_forms::member;
use request_model::read_schema_keeps_rules;
use resource_schema::{
    ATTRIBUTE_LIMIT, Attribute, KIND_LIMIT, Kind, RELATIONSHIP_LIMIT, Relationship, Schema, Why,
};
use serde_json::{Map, Value};
use std::alloc::Global;

/// The attributes of a type, each in order.
fn read_attributes(
    alloc: Global,
    group: &str,
    members: &Map<String, Value>,
) -> Result<List<Attribute>, SchemaEnd>
    ensures { Finds result (all_ok (map (attribute_from group.now) (members_in members.now))) }
{
    let mut attributes = Vec::new(alloc);
    for (name, value) in members {
        match read_attribute(alloc, group, name.as_str(), value) {
            Ok(attribute) => attributes.push(attribute)?,
            Err(end) => return Err(end),
        }
    }
    Ok(List::from_vec(attributes))
}

/// The relationships of a type, each in order.
fn read_relationships(
    alloc: Global,
    kinds: &[Text],
    attributes: &[Attribute],
    group: &str,
    members: &Map<String, Value>,
) -> Result<List<Relationship>, SchemaEnd>
    requires few { length kinds.now ≤ KIND_LIMIT }
    ensures { Finds result (all_ok (map (relationship_from kinds.now (map (λ a. a.name) attributes.now) group.now) (members_in members.now))) }
{
    let mut relationships = Vec::new(alloc);
    for (name, value) in members {
        match read_relationship(alloc, kinds, attributes, group, name.as_str(), value) {
            Ok(relationship) => relationships.push(relationship)?,
            Err(end) => return Err(end),
        }
    }
    Ok(List::from_vec(relationships))
}

/// The attributes of a type, which may be absent.
fn attributes_at(alloc: Global, at: &str, value: &Value) -> Result<List<Attribute>, SchemaEnd>
    ensures { Finds result (attributes_at at.now (view value.now)) }
{
    let group = member_pointer(alloc, at, "attributes")?;
    match fields_at(
        alloc,
        group.as_str(),
        ATTRIBUTE_LIMIT,
        member(value, "attributes"),
    )? {
        Some(members) => read_attributes(alloc, group.as_str(), members),
        None => Ok(List::from_vec(Vec::new(alloc))),
    }
}

/// The relationships of a type, which may be absent.
fn relationships_at(
    alloc: Global,
    kinds: &[Text],
    attributes: &[Attribute],
    at: &str,
    value: &Value,
) -> Result<List<Relationship>, SchemaEnd>
    requires few { length kinds.now ≤ KIND_LIMIT }
    ensures { Finds result (relationships_at kinds.now (map (λ a. a.name) attributes.now) at.now (view value.now)) }
{
    let group = member_pointer(alloc, at, "relationships")?;
    match fields_at(
        alloc,
        group.as_str(),
        RELATIONSHIP_LIMIT,
        member(value, "relationships"),
    )? {
        Some(members) => read_relationships(alloc, kinds, attributes, group.as_str(), members),
        None => Ok(List::from_vec(Vec::new(alloc))),
    }
}

/// One type: its name, itself as an object, `client-ids`, `attributes` and `relationships` are judged in this order.
fn read_kind(alloc: Global, kinds: &[Text], text: &str, value: &Value) -> Result<Kind, SchemaEnd>
    requires few { length kinds.now ≤ KIND_LIMIT }
    ensures { Finds result (kind_from kinds.now (text.now, view value.now)) }
{
    let at = member_pointer(alloc, "/types", text)?;
    let name = kind_name(alloc, at.as_str(), text)?;
    object_at(alloc, at.as_str(), Some(value))?;
    let client_ids = flag_in(alloc, at.as_str(), "client-ids", value)?;
    let attributes = attributes_at(alloc, at.as_str(), value)?;
    let relationships = relationships_at(alloc, kinds, attributes.as_slice(), at.as_str(), value)?;
    Ok(Kind {
        name,
        client_ids,
        attributes,
        relationships,
    })
}

/// The names of a type's fields rise.
fn field_names_rise(value: &Value)
    ensures { FieldNamesRise (view value.now) }
{
    names_rise(member(value, "attributes"));
    names_rise(member(value, "relationships"));
}

/// The names of the fields of each type rise.
fn each_field_names_rise(types: &Map<String, Value>)
    ensures { AllByRecursion (λ m. FieldNamesRise m.1) (members_in types.now) }
{
    for (_name, value) in types {
        field_names_rise(value);
    }
}

/// The names of the types, in order.
fn type_names(alloc: Global, types: &Map<String, Value>) -> Result<List<Text>, NoMemory>
    ensures { IfOk result (λ l. l ≡ map (λ t. t.0) (members_in types.now)) }
{
    let mut names = Vec::new(alloc);
    for (name, _value) in types {
        names.push(Text::from_str(alloc, name.as_str())?)?;
    }
    Ok(List::from_vec(names))
}

/// The types, each in order.
fn read_kinds(
    alloc: Global,
    kinds: &[Text],
    types: &Map<String, Value>,
) -> Result<List<Kind>, SchemaEnd>
    requires few { length kinds.now ≤ KIND_LIMIT }
    ensures { Finds result (all_ok (map (kind_from kinds.now) (members_in types.now))) }
{
    let mut read = Vec::new(alloc);
    for (name, value) in types {
        match read_kind(alloc, kinds, name.as_str(), value) {
            Ok(kind) => read.push(kind)?,
            Err(end) => return Err(end),
        }
    }
    Ok(List::from_vec(read))
}

/// The types of a file, at most `KIND_LIMIT`, whose names are those that relationships lead to.
fn read_named_kinds(alloc: Global, types: &Map<String, Value>) -> Result<List<Kind>, SchemaEnd>
    requires few { length (members_in types.now) ≤ KIND_LIMIT }
    ensures { Finds result (all_ok (map (kind_from (map (λ t. t.0) (members_in types.now))) (members_in types.now))) }
{
    let names = type_names(alloc, types)?;
    read_kinds(alloc, names.as_slice(), types)
}

/// The types of a schema.
fn read_types(alloc: Global, value: &Value) -> Result<List<Kind>, SchemaEnd>
    ensures value { Finds result (schema_of (view value.now)) }
    ensures names { IfOk result (λ _. SchemaNamesRise (view value.now)) }
{
    object_at(alloc, "/", Some(value))?;
    let types = object_at(alloc, "/types", member(value, "types"))?;
    if is_empty(types) {
        return Err(fault(alloc, "/types", Why::Empty));
    }
    if exceeds(types, KIND_LIMIT) {
        return Err(fault(alloc, "/types", Why::Limit));
    }
    names_rise(member(value, "types"));
    each_field_names_rise(types);
    read_named_kinds(alloc, types)
}

/// The schema that a JSON value describes (of this project; names as in JSON:API 1.1, "Member Names" and "Fields").
///
/// The value is walked in byte order of the names, type by type: a type's name, itself as an object, `client-ids`, its
/// attributes and its relationships. The fault is the first one that the walk meets; it is never `Why::NoJson`. Limits: 1 to
/// `KIND_LIMIT` types, of each at most `ATTRIBUTE_LIMIT` attributes and `RELATIONSHIP_LIMIT` relationships.
pub fn read_schema(alloc: Global, value: &Value) -> Result<Schema, SchemaEnd>
    ensures { Finds result (schema_of (view value.now)) }
{
    read_schema_keeps_rules();
    let kinds = read_types(alloc, value)?;
    Ok(Schema::from_kinds(kinds))
}
