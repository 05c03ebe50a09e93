ghost use Rattle.std.specs.Prelude.{◌≡◌, ◌<◌, ◌≤◌, IfSome, length, map, option_map};
ghost use Rattle.std.specs.List.{position};
ghost use Rattle.std.specs.Str.{bytes_eq};
ghost use Rattle.serde_json.specs.View.{view};
ghost use Rattle.resource_schema.specs.SchemaRules.{is_one_of};
ghost use Rattle.request_model.specs.SchemaFile.{form_of, many_of, attribute_from, relationship_from};
ghost use Rattle.schema_file.specs.Finds.{Finds};
ghost use Rattle.schema_file.specs.Walks.{form_at, many_at, target_in};
ghost use Rattle.resource_schema.specs.declared.kinds.TheConstants.{KIND_LIMIT};

use crate::SchemaEnd;
use crate::faults::fault;
use crate::names::field_name;
use crate::parts::{default_in, fault_in, flag_in, object_at};
use document_parts::member_pointer;
use ident_rules::Text;
use json_forms::text_at;
use resource_schema::{Attribute, Form, Relationship, Why};
use serde_json::Value;
use std::alloc::Global;

/// The form of attributes by its word.
fn form_of(word: &str) -> Option<Form>
    ensures { result ≡ form_of word.now }
{
    match word {
        "int" => Some(Form::Int),
        "text" => Some(Form::Text),
        "bool" => Some(Form::Bool),
        _ => None,
    }
}

/// Whether a relationship leads to many, by its word.
fn many_of(word: &str) -> Option<bool>
    ensures { result ≡ many_of word.now }
{
    match word {
        "many" => Some(true),
        "one" => Some(false),
        _ => None,
    }
}

/// The form of an attribute.
fn form_at(alloc: Global, at: &str, value: &Value) -> Result<Form, SchemaEnd>
    ensures { Finds result (form_at at.now (view value.now)) }
{
    match text_at(value, "type").and_then(form_of) {
        Some(form) => Ok(form),
        None => Err(fault_in(alloc, at, "type", Why::BadType)),
    }
}

/// Whether a relationship leads to many.
fn many_at(alloc: Global, at: &str, value: &Value) -> Result<bool, SchemaEnd>
    ensures { Finds result (many_at at.now (view value.now)) }
{
    match text_at(value, "kind").and_then(many_of) {
        Some(many) => Ok(many),
        None => Err(fault_in(alloc, at, "kind", Why::BadKind)),
    }
}

/// The place of a type among those of the file.
fn place_of(kinds: &[Text], name: &str) -> Option<usize>
    ensures place { result ≡ position (bytes_eq name.now) kinds.now }
    ensures within { IfSome result (λ place. place < length kinds.now) }
{
    kinds.iter().position(|kind| name == kind.as_str())
}

/// The number of the type that a relationship leads to.
fn target_at(alloc: Global, kinds: &[Text], at: &str, value: &Value) -> Result<u32, SchemaEnd>
    requires few { length kinds.now ≤ KIND_LIMIT }
    ensures { Finds result (target_in kinds.now at.now (view value.now)) }
{
    if let Some(name) = text_at(value, "target") {
        if let Some(place) = place_of(kinds, name) {
            return Ok(place as u32);
        }
    }
    Err(fault_in(alloc, at, "target", Why::BadTarget))
}

/// Whether one of the attributes has this name.
fn has_attribute(attributes: &[Attribute], name: &str) -> bool
    ensures { result ≡ is_one_of (map (λ a. a.name) attributes.now) name.now }
{
    for attribute in attributes {
        if name == attribute.name.as_str() {
            return true;
        }
    }
    false
}

/// One attribute: its name, itself as an object, `type`, `nullable` and `default` are judged in this order.
pub fn read_attribute(
    alloc: Global,
    group: &str,
    text: &str,
    value: &Value,
) -> Result<Attribute, SchemaEnd>
    ensures { Finds result (attribute_from group.now (text.now, view value.now)) }
{
    let at = member_pointer(alloc, group, text)?;
    let name = field_name(alloc, at.as_str(), text)?;
    object_at(alloc, at.as_str(), Some(value))?;
    let form = form_at(alloc, at.as_str(), value)?;
    let nullable = flag_in(alloc, at.as_str(), "nullable", value)?;
    let default = default_in(alloc, at.as_str(), "default", form, nullable, value)?;
    Ok(Attribute {
        name,
        form,
        nullable,
        default,
    })
}

/// One relationship: its name, that no attribute has it, itself as an object, `kind` and `target` are judged in this
/// order.
pub fn read_relationship(
    alloc: Global,
    kinds: &[Text],
    attributes: &[Attribute],
    group: &str,
    text: &str,
    value: &Value,
) -> Result<Relationship, SchemaEnd>
    requires few { length kinds.now ≤ KIND_LIMIT }
    ensures { Finds result (relationship_from kinds.now (map (λ a. a.name) attributes.now) group.now (text.now, view value.now)) }
{
    let at = member_pointer(alloc, group, text)?;
    let name = field_name(alloc, at.as_str(), text)?;
    if has_attribute(attributes, text) {
        return Err(fault(alloc, at.as_str(), Why::Shared));
    }
    object_at(alloc, at.as_str(), Some(value))?;
    let many = many_at(alloc, at.as_str(), value)?;
    let target = target_at(alloc, kinds, at.as_str(), value)?;
    Ok(Relationship { name, many, target })
}
