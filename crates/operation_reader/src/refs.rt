ghost use Rattle.std.specs.Prelude.{◌≡◌, IfOk, codes, is_some, option_map, true};
ghost use Rattle.std.specs.Str.{is_utf8};
ghost use Rattle.serde_json.specs.View.{view};
ghost use Rattle.ident_rules.specs.Id.{is_id};
ghost use Rattle.request_model.specs.Words.{result_map, some_if};
ghost use Rattle.request_model.specs.Documents.{named_in};
ghost use Rattle.request_model.specs.OperationLists.{aim_of_ref, optional_text, ref_aim};
ghost use Rattle.ident_rules.specs.StepErrors.{Gives};
ghost use Rattle.operation_reader.specs.Parts.{part_pointer, ref_name};

use crate::refusals::{refuse_in_part, refuse_part};
use error_objects::{Code, Refusal};
use ident_rules::{Id, Key, NoMemory, StepError, Text, read_id};
use json_forms::{member, text_at, text_of};
use request_model::Aim;
use resource_schema::Schema;
use serde_json::Value;
use std::alloc::Global;
use task_forms::{Named, Where, Who};

/// The id that the text is, where it keeps the rule of ids.
fn id_of(text: &str) -> Option<Id>
    ensures { result ≡ some_if (is_id text.now) text.now }
{
    read_id(text).ok()
}

/// Whether exactly one of `id` and `lid` is a text.
fn is_named(value: &Value) -> bool
    ensures { result ≡ is_some (named_in 0 (view value.now)) }
{
    text_at(value, "id").is_some() != text_at(value, "lid").is_some()
}

/// A text, where there is something.
fn optional_text<'v>(
    alloc: Global,
    place: u32,
    found: Option<&'v Value>,
) -> Result<Option<&'v str>, StepError<Refusal>>
    ensures { Gives (result_map (λ o. option_map (λ t. t.now) o) result) (optional_text (part_pointer place (codes "ref")) (option_map (λ v. view v.now) found.entry)) }
{
    let Some(value) = found else {
        return Ok(None);
    };
    match text_of(value) {
        Some(text) => Ok(Some(text)),
        None => Err(refuse_part(alloc, Code::BadDocument, place, "ref")),
    }
}

/// A local id as a text of its own.
fn lid_text(alloc: Global, lid: &str) -> Result<Text, NoMemory>
    ensures text { IfOk result (λ t. t ≡ lid.now) }
    ensures utf8 { is_utf8 lid.now ≡ true }
{
    Text::from_str(alloc, lid)
}

/// What `id` or `lid` of a `ref` names.
fn ref_name(
    alloc: Global,
    kind: u32,
    place: u32,
    value: &Value,
) -> Result<Named, StepError<Refusal>>
    ensures { Gives result (ref_name kind (part_pointer place (codes "ref")) (view value.now)) }
{
    match (text_at(value, "id"), text_at(value, "lid")) {
        (Some(text), None) => match id_of(text) {
            Some(id) => Ok(Named::Id(Key { kind, id })),
            None => Err(refuse_in_part(alloc, Code::NotFound, place, "ref", "id")),
        },
        (None, Some(lid)) => Ok(Named::Lid(kind, lid_text(alloc, lid)?)),
        _ => Err(refuse_part(alloc, Code::BadDocument, place, "ref")),
    }
}

/// The resource itself, or one of its relationships.
fn aim_of_ref(
    alloc: Global,
    schema: &Schema,
    place: u32,
    who: Who,
    name: Option<&str>,
) -> Result<Aim, StepError<Refusal>>
    ensures { Gives result (aim_of_ref schema.now (part_pointer place (codes "ref")) who (option_map (λ t. t.now) name.entry)) }
{
    let Some(name) = name else {
        return Ok(Aim::Resource(who));
    };
    match schema.relationship_of(who.named.kind(), name) {
        Some(rel) => Ok(Aim::Relationship(who, rel)),
        None => Err(refuse_in_part(alloc, Code::NotFound, place, "ref", "relationship")),
    }
}

/// What `ref` names: its form is judged before its names (Atomic Operations extension, "ref").
pub fn ref_aim(
    alloc: Global,
    schema: &Schema,
    place: u32,
    value: &Value,
) -> Result<Aim, StepError<Refusal>>
    ensures { Gives result (ref_aim schema.now (part_pointer place (codes "ref")) (view value.now)) }
{
    let Some(word) = text_at(value, "type") else {
        return Err(refuse_part(alloc, Code::BadDocument, place, "ref"));
    };
    if !is_named(value) {
        return Err(refuse_part(alloc, Code::BadDocument, place, "ref"));
    }
    let name = optional_text(alloc, place, member(value, "relationship"))?;
    let Some(kind) = schema.kind_of(word) else {
        return Err(refuse_in_part(alloc, Code::NotFound, place, "ref", "type"));
    };
    let named = ref_name(alloc, kind, place, value)?;
    let who = Who {
        named,
        place: Where::Ref,
    };
    aim_of_ref(alloc, schema, place, who, name)
}
