ghost use Rattle.std.specs.Prelude.{◌≡◌, option_map};
ghost use Rattle.serde_json.specs.Find.{get};
ghost use Rattle.serde_json.specs.View.{view};
ghost use Rattle.request_model.specs.OperationLists.{aim_by};
ghost use Rattle.ident_rules.specs.StepErrors.{Gives};
ghost use Rattle.operation_reader.specs.Parts.{operation_pointer};

use crate::hrefs::href_aim;
use crate::refs::ref_aim;
use crate::refusals::bad_operation;
use error_objects::Refusal;
use ident_rules::StepError;
use request_model::{Aim, Op};
use resource_schema::Schema;
use serde_json::Value;
use std::alloc::Global;

/// What an operation is aimed at: at most one of `ref` and `href` is there, and for a removal one of them (Atomic Operations
/// extension, "Operation Objects").
pub fn aim_by(
    alloc: Global,
    schema: &Schema,
    op: Op,
    place: u32,
    by_ref: Option<&Value>,
    by_href: Option<&Value>,
) -> Result<Aim, StepError<Refusal>>
    ensures { Gives result (aim_by schema.now op (operation_pointer place) (option_map (λ v. view v.now) by_ref.entry) (option_map (λ v. view v.now) by_href.entry)) }
{
    match (by_ref, by_href) {
        (Some(_), Some(_)) => Err(bad_operation(alloc, place)),
        (Some(value), None) => ref_aim(alloc, schema, place, value),
        (None, Some(value)) => href_aim(alloc, schema, place, value),
        (None, None) => match op {
            Op::Remove => Err(bad_operation(alloc, place)),
            Op::Add | Op::Update => Ok(Aim::Nothing),
        },
    }
}
