ghost use Rattle.std.specs.Prelude.{◌≡◌, ◌++◌, IfOk, Some};
ghost use Rattle.error_objects.specs.Refusals.{at_pointer};
ghost use Rattle.store_model.specs.Change.{key_of, refuse_target, named_row, at_target};
ghost use Rattle.store_model.specs.Run.{refusal_under};
ghost use Rattle.store_model.specs.Reach.{is_row_in, target_keys};
ghost use Rattle.trial_steps.specs.Steps.{LooksAt, Tells};

use crate::steps::Step;
use error_objects::{Blame, Code, Refusal};
use ident_rules::{Key, NoMemory, StepError, Text};
use local_ids::LocalIds;
use outer_ends::Work;
use std::alloc::Global;
use task_forms::{Named, Where, Who};
use trial_steps::find_row;
use view_reads::{Recorder, View};
use world_cells::Row;

/// The key that a name stands for, if it is bound.
pub fn key_of(lids: &LocalIds, named: &Named) -> Option<Key>
    ensures { result ≡ key_of lids.now named.now }
{
    match named {
        Named::Id(key) => Some(*key),
        Named::Lid(kind, lid) => {
            let id = lids.find(*kind, lid.as_str())?;
            Some(Key { kind: *kind, id })
        }
    }
}

/// A copy of the row that an operation changes.
pub fn find_target<V: View>(
    step: &Step<'_>,
    lids: &LocalIds,
    who: &Who,
    recorder: &mut Recorder<V>,
    work: &mut Work,
) -> Result<Row, StepError<Refusal>>
    ensures looks { LooksAt (is_row_in (target_keys lids.now who.now)) recorder.old recorder.new }
    ensures sees { Tells step.now.pointer.now V.cells recorder.old recorder.new (λ schema now. refuse_target now lids.now who.now) (λ now row. named_row now lids.now who.now ≡ Some row) result }
{
    let Some(key) = key_of(lids, &who.named) else {
        let refusal = refuse_at(step, Code::UnknownLid, who, "/lid")?;
        return Err(StepError::Because(refusal));
    };
    match find_row(step.alloc, &key, recorder, work)? {
        Some(row) => Ok(row),
        None => {
            let refusal = refuse_at(step, Code::NotFound, who, "")?;
            Err(StepError::Because(refusal))
        }
    }
}

/// The refusal of the resource that an operation changes, seen from the request: `after` stands under what named the
/// resource. Its one error is want of memory.
pub fn refuse_at(step: &Step<'_>, code: Code, who: &Who, after: &str) -> Result<Refusal, NoMemory>
    ensures { IfOk result (λ r. r ≡ refusal_under step.now.pointer.now (at_target code who.now after.now)) }
{
    let (alloc, at) = (step.alloc, step.pointer);
    let blame = match who.place {
        Where::Plain => {
            if after.is_empty() {
                Blame::Nothing
            } else {
                Blame::Pointer(joined_pointer(alloc, at, "", after)?)
            }
        }
        Where::Ref => Blame::Pointer(joined_pointer(alloc, at, "/ref", after)?),
        Where::Href => Blame::Pointer(joined_pointer(alloc, at, "/href", after)?),
        Where::Data => Blame::Pointer(joined_pointer(alloc, at, "/data", after)?),
    };
    Ok(Refusal { code, blame })
}

/// The refusal of a part of an operation, seen from the request. Its one error is want of memory.
pub fn refuse_part(
    step: &Step<'_>,
    code: Code,
    part: &str,
    after: &str,
) -> Result<Refusal, NoMemory>
    ensures { IfOk result (λ r. r ≡ refusal_under step.now.pointer.now (at_pointer code (part.now ++ after.now))) }
{
    let pointer = joined_pointer(step.alloc, step.pointer, part, after)?;
    Ok(Refusal {
        code,
        blame: Blame::Pointer(pointer),
    })
}

/// A pointer of three parts. Its one error is want of memory.
pub fn joined_pointer(alloc: Global, at: &str, part: &str, after: &str) -> Result<Text, NoMemory>
    ensures { IfOk result (λ t. t ≡ at.now ++ (part.now ++ after.now)) }
{
    let mut pointer = String::from_str(alloc, at)?;
    pointer.push_str(part)?;
    pointer.push_str(after)?;
    Ok(Text::from_string(pointer))
}
