ghost use Rattle.std.specs.Prelude.{◌≡◌};
ghost use Rattle.serde_json.specs.View.{view};
ghost use Rattle.request_model.specs.OperationLists.{op_of, op_at};
ghost use Rattle.ident_rules.specs.StepErrors.{Gives};
ghost use Rattle.operation_reader.specs.Parts.{operation_pointer};

use crate::refusals::{bad_operation, refuse_part};
use error_objects::{Code, Refusal};
use ident_rules::StepError;
use json_forms::{member, text_of};
use request_model::Op;
use serde_json::Value;
use std::alloc::Global;

/// The operation that a word stands for.
fn op_of(text: &str) -> Option<Op>
    ensures { result ≡ op_of text.now }
{
    match text {
        "add" => Some(Op::Add),
        "update" => Some(Op::Update),
        "remove" => Some(Op::Remove),
        _ => None,
    }
}

/// The member `op` of an operation (Atomic Operations extension, "Operation Objects").
pub fn op_at(alloc: Global, place: u32, value: &Value) -> Result<Op, StepError<Refusal>>
    ensures { Gives result (op_at (operation_pointer place) (view value.now)) }
{
    let Some(word) = member(value, "op") else {
        return Err(bad_operation(alloc, place));
    };
    let Some(text) = text_of(word) else {
        return Err(refuse_part(alloc, Code::BadDocument, place, "op"));
    };
    match op_of(text) {
        Some(op) => Ok(op),
        None => Err(refuse_part(alloc, Code::BadDocument, place, "op")),
    }
}
