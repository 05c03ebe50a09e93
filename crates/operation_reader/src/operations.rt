ghost use Rattle.std.specs.Prelude.{◌≡◌, List as Listed, Result, codes, option_map};
ghost use Rattle.serde_json.specs.View.{view};
ghost use Rattle.error_objects.specs.declared.refusals.Refusal.{Refusal};
ghost use Rattle.error_objects.specs.Refusals.{IsRead};
ghost use Rattle.task_forms.specs.declared.operations.Member.{Member};
ghost use Rattle.task_forms.specs.Fit.{kind_of};
ghost use Rattle.request_model.specs.Documents.{linkage_from, object_at};
ghost use Rattle.request_model.specs.Words.{result_map};
ghost use Rattle.request_model.specs.OperationLists.{operation_by, operation_of, with_data};
ghost use Rattle.ident_rules.specs.StepErrors.{Gives};
ghost use Rattle.resource_reader.specs.Reads.{IsReadVec};
ghost use Rattle.operation_reader.specs.Parts.{operation_pointer, part_pointer};

use crate::acts::act_of;
use crate::aims::aim_by;
use crate::places::part_pointer;
use crate::refusals::bad_operation;
use crate::words::op_at;
use error_objects::{Read, Refusal};
use ident_rules::{List, StepError};
use json_forms::member;
use request_model::Act;
use resource_reader::{read_create, read_members, read_update};
use resource_schema::Schema;
use serde_json::Value;
use std::alloc::Global;
use task_forms::{Member, Operation, Who};

/// What a reader of documents answers, as a result.
fn taken(read: Read<Operation>) -> Result<Operation, StepError<Refusal>>
    ensures { (d : Result Operation Refusal) → IsRead read d → Gives result d }
{
    match read {
        Read::Good(operation) => Ok(operation),
        Read::Refused(refusal) => Err(StepError::Because(refusal)),
        Read::NoMemory => Err(StepError::NoMemory),
    }
}

/// The members that a reader of documents answers.
fn taken_members(read: Read<Vec<Member>>) -> Result<List<Member>, StepError<Refusal>>
    ensures { (d : Result (Listed Member) Refusal) → IsReadVec read d → Gives result d }
{
    match read {
        Read::Good(members) => Ok(List::from_vec(members)),
        Read::Refused(refusal) => Err(StepError::Because(refusal)),
        Read::NoMemory => Err(StepError::NoMemory),
    }
}

/// The members of a relationship of a resource.
fn members_at(
    alloc: Global,
    schema: &Schema,
    at: &str,
    who: &Who,
    rel: u32,
    value: &Value,
) -> Result<List<Member>, StepError<Refusal>>
    ensures { Gives result (linkage_from schema.now (kind_of who.now.named) rel at.now (view value.now)) }
{
    taken_members(read_members(alloc, schema, value, at, who.named.kind(), rel))
}

/// The operation with its data.
fn with_data(
    alloc: Global,
    schema: &Schema,
    at: &str,
    act: Act,
    value: &Value,
) -> Result<Operation, StepError<Refusal>>
    ensures { Gives result (with_data schema.now at.now act (view value.now)) }
{
    match act {
        Act::Creates(kind) => taken(read_create(alloc, schema, value, at, kind)),
        Act::Updates(who) => taken(read_update(alloc, schema, value, at, who)),
        Act::Removes(who) => Ok(Operation::Remove { who }),
        Act::Adds(who, rel) => {
            let members = members_at(alloc, schema, at, &who, rel, value)?;
            Ok(Operation::AddLinks { who, rel, members })
        }
        Act::Sets(who, rel) => {
            let members = members_at(alloc, schema, at, &who, rel, value)?;
            Ok(Operation::SetLinks { who, rel, members })
        }
        Act::Drops(who, rel) => {
            let members = members_at(alloc, schema, at, &who, rel, value)?;
            Ok(Operation::DropLinks { who, rel, members })
        }
    }
}

/// The operation at that place of the list, with the data that is its member.
fn with_own_data(
    alloc: Global,
    schema: &Schema,
    place: u32,
    act: Act,
    value: &Value,
) -> Result<Operation, StepError<Refusal>>
    ensures { Gives result (with_data schema.now (part_pointer place (codes "data")) act (view value.now)) }
{
    let at = part_pointer(alloc, place, "data")?;
    with_data(alloc, schema, at.as_str(), act, value)
}

/// The operation with its data, which the removal of a resource does not need.
fn operation_by(
    alloc: Global,
    schema: &Schema,
    place: u32,
    act: Act,
    found: Option<&Value>,
) -> Result<Operation, StepError<Refusal>>
    ensures { Gives result (operation_by schema.now (operation_pointer place) act (option_map (λ v. view v.now) found.entry)) }
{
    if let Act::Removes(who) = act {
        return Ok(Operation::Remove { who });
    }
    let Some(value) = found else {
        return Err(bad_operation(alloc, place));
    };
    with_own_data(alloc, schema, place, act, value)
}

/// An object, whatever is in it.
fn check_object(alloc: Global, place: u32, value: &Value) -> Result<(), StepError<Refusal>>
    ensures { Gives result (result_map (λ _. tt) (object_at (operation_pointer place) (view value.now))) }
{
    match value {
        Value::Object(_) => Ok(()),
        _ => Err(bad_operation(alloc, place)),
    }
}

/// The operation at that place of the list: an object, its word, its target, the pair of both, and its data, in this order (Atomic Operations extension,
/// "Operation Objects").
pub fn operation_of(
    alloc: Global,
    schema: &Schema,
    place: u32,
    value: &Value,
) -> Result<Operation, StepError<Refusal>>
    ensures { Gives result (operation_of schema.now (operation_pointer place) (view value.now)) }
{
    check_object(alloc, place, value)?;
    let op = op_at(alloc, place, value)?;
    let aim = aim_by(
        alloc,
        schema,
        op,
        place,
        member(value, "ref"),
        member(value, "href"),
    )?;
    let act = act_of(alloc, schema, place, value, op, aim)?;
    operation_by(alloc, schema, place, act, member(value, "data"))
}
