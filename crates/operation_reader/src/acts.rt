ghost use Rattle.std.specs.Prelude.{◌≡◌, codes};
ghost use Rattle.serde_json.specs.View.{view};
ghost use Rattle.request_model.specs.declared.forms.Op.TheVariants as op;
ghost use Rattle.request_model.specs.Documents.{bad_document};
ghost use Rattle.request_model.specs.OperationLists.{act_of, aim_pointer};
ghost use Rattle.ident_rules.specs.StepErrors.{Gives, IsStop};
ghost use Rattle.operation_reader.specs.Parts.{operation_pointer, part_pointer};

use crate::refusals::refuse_part;
use error_objects::{Code, Refusal};
use ident_rules::StepError;
use json_forms::member;
use request_model::{Act, Aim, Op};
use resource_schema::Schema;
use serde_json::Value;
use std::alloc::Global;

/// The refusal of a target that no operation with that word has, where it is named.
fn no_such_target(alloc: Global, place: u32, value: &Value) -> StepError<Refusal>
    ensures { IsStop result (bad_document (aim_pointer (operation_pointer place) (view value.now))) }
{
    match member(value, "ref") {
        Some(_) => refuse_part(alloc, Code::BadDocument, place, "ref"),
        None => refuse_part(alloc, Code::BadDocument, place, "href"),
    }
}

/// The refusal of an operation on a relationship that is to-one, and so is only set.
fn only_set(alloc: Global, place: u32) -> StepError<Refusal>
    ensures { IsStop result (bad_document (part_pointer place (codes "op"))) }
{
    refuse_part(alloc, Code::BadDocument, place, "op")
}

/// What `add` does.
fn add_act(
    alloc: Global,
    schema: &Schema,
    place: u32,
    value: &Value,
    aim: Aim,
) -> Result<Act, StepError<Refusal>>
    ensures { Gives result (act_of schema.now (operation_pointer place) (view value.now) op.Add aim) }
{
    match aim {
        Aim::Nothing => Ok(Act::Creates(None)),
        Aim::Collection(kind) => Ok(Act::Creates(Some(kind))),
        Aim::Relationship(who, rel) => {
            if schema.is_many(who.named.kind(), rel) {
                Ok(Act::Adds(who, rel))
            } else {
                Err(only_set(alloc, place))
            }
        }
        Aim::Resource(_) | Aim::Elsewhere => Err(no_such_target(alloc, place, value)),
    }
}

/// What `update` does.
fn update_act(
    alloc: Global,
    schema: &Schema,
    place: u32,
    value: &Value,
    aim: Aim,
) -> Result<Act, StepError<Refusal>>
    ensures { Gives result (act_of schema.now (operation_pointer place) (view value.now) op.Update aim) }
{
    match aim {
        Aim::Nothing => Ok(Act::Updates(None)),
        Aim::Resource(who) => Ok(Act::Updates(Some(who))),
        Aim::Relationship(who, rel) => Ok(Act::Sets(who, rel)),
        Aim::Collection(_) | Aim::Elsewhere => Err(no_such_target(alloc, place, value)),
    }
}

/// What `remove` does.
fn remove_act(
    alloc: Global,
    schema: &Schema,
    place: u32,
    value: &Value,
    aim: Aim,
) -> Result<Act, StepError<Refusal>>
    ensures { Gives result (act_of schema.now (operation_pointer place) (view value.now) op.Remove aim) }
{
    match aim {
        Aim::Resource(who) => Ok(Act::Removes(who)),
        Aim::Relationship(who, rel) => {
            if schema.is_many(who.named.kind(), rel) {
                Ok(Act::Drops(who, rel))
            } else {
                Err(only_set(alloc, place))
            }
        }
        Aim::Nothing | Aim::Collection(_) | Aim::Elsewhere => {
            Err(no_such_target(alloc, place, value))
        }
    }
}

/// What an operation does, by its word and what it is aimed at (Atomic Operations extension, "Adding Resources" to "Removing
/// Members From a To-Many Relationship").
pub fn act_of(
    alloc: Global,
    schema: &Schema,
    place: u32,
    value: &Value,
    op: Op,
    aim: Aim,
) -> Result<Act, StepError<Refusal>>
    ensures { Gives result (act_of schema.now (operation_pointer place) (view value.now) op aim) }
{
    match op {
        Op::Add => add_act(alloc, schema, place, value, aim),
        Op::Update => update_act(alloc, schema, place, value, aim),
        Op::Remove => remove_act(alloc, schema, place, value, aim),
    }
}
