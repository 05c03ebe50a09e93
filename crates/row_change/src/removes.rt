ghost use Rattle.task_forms.specs.declared.operations.Operation.TheVariants as operation;
ghost use Rattle.view_reads.specs.Recording.{Follows};
ghost use Rattle.row_change.specs.Trial.{TellsChange, ReadsInReach, read_of};

use crate::finds::{find_target, refuse_at};
use crate::references::is_referenced;
use crate::steps::Step;
use error_objects::{Code, Refusal};
use ident_rules::{Key, StepError};
use local_ids::LocalIds;
use outer_ends::Work;
use row_writes::remove_row;
use task_forms::Who;
use view_reads::{Recorder, View};

/// Removes a resource to which no other leads (JSON:API 1.1, "Deleting Resources"). There is no key.
pub fn remove<V: View>(
    step: &Step<'_>,
    lids: &LocalIds,
    who: &Who,
    recorder: &mut Recorder<V>,
    work: &mut Work,
) -> Result<Option<Key>, StepError<Refusal>>
    ensures reads { Follows recorder.old recorder.new }
    ensures outcome { TellsChange step.now.schema.now V.cells step.now.pointer.now (operation.Remove who.now) lids.now lids.now recorder.old recorder.new (read_of result) }
    ensures reach { ReadsInReach step.now.schema.now V.cells (operation.Remove who.now) lids.now recorder.old recorder.new }
{
    let row = find_target(step, lids, who, recorder, work)?;
    if is_referenced(&row.key, recorder, work)? {
        let refusal = refuse_at(step, Code::StillReferenced, who, "")?;
        return Err(StepError::Because(refusal));
    }
    remove_row(step.schema, &row, recorder)?;
    Ok(None)
}
