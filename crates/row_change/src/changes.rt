ghost use Rattle.std.specs.Prelude.{◌≡◌};
ghost use Rattle.view_reads.specs.Recording.{Follows};
ghost use Rattle.row_change.specs.Trial.{TellsChange, ReadsInReach, read_of};

use crate::creates::{NewResource, create};
use crate::members::{LinkChange, LinkOperation, change_link};
use crate::removes::remove;
use crate::steps::Step;
use crate::updates::{ResourceUpdate, update};
use error_objects::{Read, Refusal};
use ident_rules::{Key, StepError};
use local_ids::LocalIds;
use outer_ends::Work;
use task_forms::Operation;
use view_reads::{Recorder, View};

/// What a step that may stop answers.
fn read_of(tried: Result<Option<Key>, StepError<Refusal>>) -> Read<Option<Key>>
    ensures { result ≡ read_of tried }
{
    match tried {
        Ok(key) => Read::Good(key),
        Err(stop) => match stop {
            StepError::Because(refusal) => Read::Refused(refusal),
            StepError::NoMemory => Read::NoMemory,
        },
    }
}

/// One operation, up to its first refusal.
fn try_change<V: View>(
    step: &Step<'_>,
    lids: &mut LocalIds,
    operation: &Operation,
    recorder: &mut Recorder<V>,
    work: &mut Work,
) -> Result<Option<Key>, StepError<Refusal>>
    ensures reads { Follows recorder.old recorder.new }
    ensures outcome { TellsChange step.now.schema.now V.cells step.now.pointer.now operation.now lids.old lids.new recorder.old recorder.new (read_of result) }
    ensures reach { ReadsInReach step.now.schema.now V.cells operation.now lids.old recorder.old recorder.new }
{
    match operation {
        Operation::Create {
            kind,
            id,
            lid,
            values,
            links,
        } => {
            let new = NewResource {
                kind: *kind,
                id: *id,
                lid,
                values,
                links,
            };
            create(step, lids, &new, recorder, work)
        }
        Operation::Update { who, values, links } => {
            update(
                step,
                lids,
                &ResourceUpdate { who, values, links },
                recorder,
                work,
            )
        }
        Operation::Remove { who } => remove(step, lids, who, recorder, work),
        Operation::SetLinks { who, rel, members } => {
            let change = LinkChange::Set;
            let operation = LinkOperation {
                who,
                rel: *rel,
                change,
                members,
            };
            change_link(step, lids, &operation, recorder, work)
        }
        Operation::AddLinks { who, rel, members } => {
            let change = LinkChange::Add;
            let operation = LinkOperation {
                who,
                rel: *rel,
                change,
                members,
            };
            change_link(step, lids, &operation, recorder, work)
        }
        Operation::DropLinks { who, rel, members } => {
            let change = LinkChange::Remove;
            let operation = LinkOperation {
                who,
                rel: *rel,
                change,
                members,
            };
            change_link(step, lids, &operation, recorder, work)
        }
    }
}

/// Does one operation (JSON:API 1.1, "Creating, Updating and Deleting Resources"; Atomic Operations extension, "Operation
/// Objects"): the key of a created or updated row, or the first refusal, whose pointer stands under that of the operation.
///
/// It answers by the recorder's view under its own writes, and puts its writes over them; after a refusal the caller forgets
/// the writes. A local id that is bound stands for its resource in later calls with these local ids.
pub fn change<V: View>(
    step: &Step<'_>,
    lids: &mut LocalIds,
    operation: &Operation,
    recorder: &mut Recorder<V>,
    work: &mut Work,
) -> Read<Option<Key>>
    ensures reads { Follows recorder.old recorder.new }
    ensures outcome { TellsChange step.now.schema.now V.cells step.now.pointer.now operation.now lids.old lids.new recorder.old recorder.new result }
    ensures reach { ReadsInReach step.now.schema.now V.cells operation.now lids.old recorder.old recorder.new }
{
    read_of(try_change(step, lids, operation, recorder, work))
}
