ghost use Rattle.std.specs.Prelude.{◌≡◌, Some, codes};
ghost use Rattle.serde_json.specs.View.{view};
ghost use Rattle.document_parts.specs.Pointers.{member_pointer};
ghost use Rattle.request_model.specs.Documents.{kind_named, resource_kind, is_lid, client_id, local_id, create_of};
ghost use Rattle.ident_rules.specs.StepErrors.{Gives};
ghost use Rattle.resource_reader.specs.OwnIds.{client_id_in, local_id_in};

use crate::fields::read_given_links;
use crate::parts::{id_of, object_at, text_member};
use crate::refusals::{refuse_at, refuse_in};
use crate::values::{all_values, read_given_values};
use error_objects::{Code, Refusal};
use ident_rules::{Id, StepError, Text};
use json_forms::{member, text_of};
use resource_schema::Schema;
use serde_json::Value;
use std::alloc::Global;
use task_forms::{LID_LIMIT, Operation};

/// The type of the endpoint, or in a list the type that the data names.
fn kind_named(
    alloc: Global,
    schema: &Schema,
    endpoint: Option<u32>,
    at: &str,
    name: &str,
) -> Result<u32, StepError<Refusal>>
    ensures { Gives result (kind_named schema.now endpoint at.now name.now) }
{
    match endpoint {
        Some(kind) => {
            if name == schema.kind_name(kind) {
                Ok(kind)
            } else {
                Err(refuse_in(alloc, Code::TypeMismatch, at, "type"))
            }
        }
        None => match schema.kind_of(name) {
            Some(kind) => Ok(kind),
            None => Err(refuse_in(alloc, Code::NotFound, at, "type")),
        },
    }
}

/// The type of a resource object (JSON:API 1.1, "Resource Objects").
pub fn resource_kind(
    alloc: Global,
    schema: &Schema,
    endpoint: Option<u32>,
    at: &str,
    value: &Value,
) -> Result<u32, StepError<Refusal>>
    ensures { Gives result (resource_kind schema.now endpoint at.now (view value.now)) }
{
    object_at(alloc, at, value)?;
    match text_member(alloc, at, "type", value) {
        Ok(name) => kind_named(alloc, schema, endpoint, at, name),
        Err(stop) => Err(stop),
    }
}

/// The id that the client gave the resource object that the pointer leads to (JSON:API 1.1, "Client-Generated IDs").
fn client_id(
    alloc: Global,
    schema: &Schema,
    kind: u32,
    at: &str,
    value: &Value,
) -> Result<Option<Id>, StepError<Refusal>>
    ensures { Gives result (client_id schema.now kind (member_pointer at.now (codes "id")) (Some (view value.now))) }
{
    let Some(text) = text_of(value) else {
        return Err(refuse_in(alloc, Code::BadDocument, at, "id"));
    };
    if !schema.has_client_ids(kind) {
        return Err(refuse_in(alloc, Code::ClientIdUnsupported, at, "id"));
    }
    let Some(id) = id_of(text) else {
        return Err(refuse_in(alloc, Code::BadId, at, "id"));
    };
    if id.is_digits() {
        return Err(refuse_in(alloc, Code::ReservedId, at, "id"));
    }
    Ok(Some(id))
}

/// Whether a text has 1 to `LID_LIMIT` bytes.
fn is_lid(text: &str) -> bool
    ensures { result ≡ is_lid text.now }
{
    !text.is_empty() && text.len() <= LID_LIMIT
}

/// The local id that the client gave the resource object that the pointer leads to (JSON:API 1.1, "Identification").
fn local_id(alloc: Global, at: &str, value: &Value) -> Result<Option<Text>, StepError<Refusal>>
    ensures { Gives result (local_id (member_pointer at.now (codes "lid")) (Some (view value.now))) }
{
    let Some(text) = text_of(value) else {
        return Err(refuse_in(alloc, Code::BadDocument, at, "lid"));
    };
    if !is_lid(text) {
        return Err(refuse_in(alloc, Code::BadDocument, at, "lid"));
    }
    Ok(Some(Text::from_str(alloc, text)?))
}

/// The client's id, at its member.
fn client_id_in(
    alloc: Global,
    schema: &Schema,
    kind: u32,
    at: &str,
    value: &Value,
) -> Result<Option<Id>, StepError<Refusal>>
    ensures { Gives result (client_id_in schema.now kind at.now (view value.now)) }
{
    let Some(given) = member(value, "id") else {
        return Ok(None);
    };
    client_id(alloc, schema, kind, at, given)
}

/// The local id, at its member.
fn local_id_in(alloc: Global, at: &str, value: &Value) -> Result<Option<Text>, StepError<Refusal>>
    ensures { Gives result (local_id_in at.now (view value.now)) }
{
    let Some(given) = member(value, "lid") else {
        return Ok(None);
    };
    local_id(alloc, at, given)
}

/// A new resource, by the rules in their order.
pub fn create_of(
    alloc: Global,
    schema: &Schema,
    endpoint: Option<u32>,
    at: &str,
    value: &Value,
) -> Result<Operation, StepError<Refusal>>
    ensures { Gives result (create_of schema.now endpoint at.now (view value.now)) }
{
    let kind = resource_kind(alloc, schema, endpoint, at, value)?;
    let id = client_id_in(alloc, schema, kind, at, value)?;
    let lid = local_id_in(alloc, at, value)?;
    let given = read_given_values(alloc, schema, kind, at, value)?;
    let links = read_given_links(alloc, schema, kind, at, value)?;
    match all_values(alloc, schema, kind, given)? {
        Some(values) => Ok(Operation::Create {
            kind,
            id,
            lid,
            values,
            links,
        }),
        None => Err(refuse_at(alloc, Code::MissingField, at)),
    }
}
