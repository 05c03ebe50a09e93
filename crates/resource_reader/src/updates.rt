ghost use Rattle.std.specs.Prelude.{◌≡◌, ℕ, None, option_map};
ghost use Rattle.serde_json.specs.View.{view};
ghost use Rattle.task_forms.specs.Fit.{kind_of};
ghost use Rattle.request_model.specs.Words.{result_map};
ghost use Rattle.request_model.specs.Documents.{own_name, is_by_path, lid_in, name_member, same_named, target_of_update, who_of, update_of};
ghost use Rattle.document_parts.specs.Pointers.{member_pointer};
ghost use Rattle.error_objects.specs.Refusals.{at_pointer};
ghost use Rattle.error_objects.specs.declared.codes.Code.TheVariants.{IdMismatch};
ghost use Rattle.ident_rules.specs.StepErrors.{Gives, IsStop};
ghost use Rattle.resource_reader.specs.Names.{named_by_name};

use crate::creates::resource_kind;
use crate::fields::read_given_links;
use crate::identifiers::{NameText, lid_text};
use crate::parts::id_of;
use crate::refusals::{bad_document, refuse_in};
use crate::values::read_given_values;
use error_objects::{Code, Refusal};
use ident_rules::{Key, StepError};
use json_forms::{member, text_of};
use resource_schema::Schema;
use serde_json::Value;
use std::alloc::Global;
use task_forms::{Named, Operation, Where, Who};

/// The type of a target that something else named.
fn endpoint_kind(endpoint: &Option<Who>) -> Option<u32>
    ensures { result ≡ option_map (λ who. kind_of who.named) endpoint.now }
{
    match endpoint {
        Some(who) => Some(who.named.kind()),
        None => None,
    }
}

/// Whether the path of the request named the resource.
fn is_plain(place: Where) -> bool
    ensures { result ≡ is_by_path place }
{
    place == Where::Plain
}

/// The local id that may name the resource: one of a list of operations, whose targets no path names.
fn lid_in<'v>(endpoint: &Option<Who>, value: &'v Value) -> Option<&'v Value>
    ensures { option_map (λ v. view v.now) result ≡ lid_in endpoint.now (view value.now) }
{
    match endpoint {
        Some(who) if is_plain(who.place) => None,
        _ => member(value, "lid"),
    }
}

/// What names the resource, where exactly one of `id` and `lid` is there, and is a text.
fn own_name<'v>(
    alloc: Global,
    at: &str,
    id: Option<&'v Value>,
    lid: Option<&'v Value>,
) -> Result<NameText<'v>, StepError<Refusal>>
    ensures { (kind : ℕ) → Gives (result_map (named_by_name kind) result) (own_name kind at.now (option_map (λ v. view v.now) id.entry) (option_map (λ v. view v.now) lid.entry)) }
{
    match id {
        Some(id) => {
            if lid.is_some() {
                return Err(bad_document(alloc, at));
            }
            match text_of(id) {
                Some(text) => Ok(NameText::Id(text)),
                None => Err(refuse_in(alloc, Code::BadDocument, at, "id")),
            }
        }
        None => {
            let Some(lid) = lid else {
                return Err(bad_document(alloc, at));
            };
            match text_of(lid) {
                Some(text) => Ok(NameText::Lid(text)),
                None => Err(refuse_in(alloc, Code::BadDocument, at, "lid")),
            }
        }
    }
}

/// Whether a text names the same resource, of the same type.
fn same_named(named: &Named, name: NameText<'_>) -> bool
    ensures { (kind : ℕ) → result ≡ same_named named.now (named_by_name kind name.entry) }
{
    match named {
        Named::Id(key) => match name {
            NameText::Id(text) => key.id.as_str() == text,
            NameText::Lid(_) => false,
        },
        Named::Lid(_, lid) => match name {
            NameText::Id(_) => false,
            NameText::Lid(text) => lid.as_str() == text,
        },
    }
}

/// The refusal of a name that is not the target's.
fn mismatch(alloc: Global, at: &str, name: NameText<'_>) -> StepError<Refusal>
    ensures { (kind : ℕ) → IsStop result (at_pointer IdMismatch (member_pointer at.now (name_member (named_by_name kind name.entry)))) }
{
    match name {
        NameText::Id(_) => refuse_in(alloc, Code::IdMismatch, at, "id"),
        NameText::Lid(_) => refuse_in(alloc, Code::IdMismatch, at, "lid"),
    }
}

/// The target that the data itself names.
fn own_target(
    alloc: Global,
    kind: u32,
    at: &str,
    name: NameText<'_>,
) -> Result<Who, StepError<Refusal>>
    ensures { Gives result (target_of_update None at.now (named_by_name kind name.entry)) }
{
    let named = match name {
        NameText::Lid(lid) => Named::Lid(kind, lid_text(alloc, lid)?),
        NameText::Id(text) => match id_of(text) {
            Some(id) => Named::Id(Key { kind, id }),
            None => return Err(refuse_in(alloc, Code::NotFound, at, "id")),
        },
    };
    Ok(Who {
        named,
        place: Where::Data,
    })
}

/// The target that something else named, which the data names as well, or else the one that the data names.
fn target_of_update(
    alloc: Global,
    endpoint: Option<Who>,
    kind: u32,
    at: &str,
    name: NameText<'_>,
) -> Result<Who, StepError<Refusal>>
    ensures { Gives result (target_of_update endpoint at.now (named_by_name kind name.entry)) }
{
    match endpoint {
        None => own_target(alloc, kind, at, name),
        Some(who) => {
            if same_named(&who.named, name) {
                Ok(who)
            } else {
                Err(mismatch(alloc, at, name))
            }
        }
    }
}

/// The target, which the data names as well.
fn read_target(
    alloc: Global,
    kind: u32,
    endpoint: Option<Who>,
    at: &str,
    value: &Value,
) -> Result<Who, StepError<Refusal>>
    ensures { Gives result (who_of kind endpoint at.now (view value.now)) }
{
    match own_name(alloc, at, member(value, "id"), lid_in(&endpoint, value)) {
        Ok(name) => target_of_update(alloc, endpoint, kind, at, name),
        Err(stop) => Err(stop),
    }
}

/// A changed resource, by the rules in their order.
pub fn update_of(
    alloc: Global,
    schema: &Schema,
    endpoint: Option<Who>,
    at: &str,
    value: &Value,
) -> Result<Operation, StepError<Refusal>>
    ensures { Gives result (update_of schema.now endpoint at.now (view value.now)) }
{
    let kind = resource_kind(alloc, schema, endpoint_kind(&endpoint), at, value)?;
    let who = read_target(alloc, kind, endpoint, at, value)?;
    let values = read_given_values(alloc, schema, kind, at, value)?;
    let links = read_given_links(alloc, schema, kind, at, value)?;
    Ok(Operation::Update { who, values, links })
}
