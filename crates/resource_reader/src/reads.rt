ghost use Rattle.error_objects.specs.Refusals.{IsRead};
ghost use Rattle.serde_json.specs.View.{view};
ghost use Rattle.request_model.specs.Documents as documents;
ghost use Rattle.resource_reader.specs.Reads.{IsReadVec};

use crate::creates::create_of;
use crate::linkages::read_linkage;
use crate::spots::Spot;
use crate::updates::update_of;
use error_objects::Read;
use ident_rules::StepError;
use resource_schema::Schema;
use serde_json::Value;
use std::alloc::Global;
use task_forms::{Member, Operation, Who};

/// Reads a new resource of the endpoint's type, or in a list of operations of the type that the data names (JSON:API 1.1,
/// "Creating Resources"). `at` is the pointer of the value (RFC 6901).
///
/// The refusal is the first one in this order: the value itself, `type`, `id`, `lid`, the attributes and then the relationships
/// in byte order of their names, an attribute without a value. Limits: a local id has 1 to 64 bytes, a text at most 65,536, a
/// linkage fewer than 2^32 members.
pub fn read_create(
    alloc: Global,
    schema: &Schema,
    value: &Value,
    at: &str,
    kind: Option<u32>,
) -> Read<Operation>
    ensures { IsRead result (documents.create_of schema.now kind at.now (view value.now)) }
{
    match create_of(alloc, schema, kind, at, value) {
        Ok(operation) => Read::Good(operation),
        Err(StepError::Because(refusal)) => Read::Refused(refusal),
        Err(StepError::NoMemory) => Read::NoMemory,
    }
}

/// Reads a changed resource, the endpoint's, or in a list of operations the one that the data names (JSON:API 1.1, "Updating
/// Resources"). `at` is the pointer of the value (RFC 6901).
///
/// The refusal is the first one in this order: the value itself, `type`, `id` and `lid`, the attributes and then the
/// relationships in byte order of their names. Limits as for `read_create`.
pub fn read_update(
    alloc: Global,
    schema: &Schema,
    value: &Value,
    at: &str,
    who: Option<Who>,
) -> Read<Operation>
    ensures { IsRead result (documents.update_of schema.now who at.now (view value.now)) }
{
    match update_of(alloc, schema, who, at, value) {
        Ok(operation) => Read::Good(operation),
        Err(StepError::Because(refusal)) => Read::Refused(refusal),
        Err(StepError::NoMemory) => Read::NoMemory,
    }
}

/// Reads the linkage of a relationship, by its type and number (JSON:API 1.1, "Resource Linkage" and "Updating Relationships").
/// `at` is the pointer of the value (RFC 6901). The refusal is the first one, members in order.
pub fn read_members(
    alloc: Global,
    schema: &Schema,
    value: &Value,
    at: &str,
    kind: u32,
    rel: u32,
) -> Read<Vec<Member>>
    ensures { IsReadVec result (documents.linkage_from schema.now kind rel at.now (view value.now)) }
{
    match read_linkage(alloc, schema, kind, rel, Spot::At(at), value) {
        Ok(members) => Read::Good(members.into_vec()),
        Err(StepError::Because(refusal)) => Read::Refused(refusal),
        Err(StepError::NoMemory) => Read::NoMemory,
    }
}
