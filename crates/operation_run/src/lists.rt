//! A list of operations, one after another.
ghost use Rattle.std.specs.Prelude.{◌≡◌, [], IfOk, codes};
ghost use Rattle.std.specs.List.{AllByRecursion};
ghost use Rattle.task_forms.specs.Fit.{FitsOperation};
ghost use Rattle.task_forms.specs.declared.tasks.ReplyForm.TheVariants as reply_form;
ghost use Rattle.store_model.specs.Reach.{reach_operation};
ghost use Rattle.trial_steps.specs.Runners.{TellsList};
ghost use Rattle.trial_steps.specs.Steps.{ReadsWithin};
ghost use Rattle.view_reads.specs.Recording.{Follows};
ghost use Rattle.operation_run.specs.Texts.{IsDraftOf};
ghost use Rattle.operation_run.specs.Listing.{TellsNext, EndsList};

use crate::pointers::refusal_under;
use crate::replies::results_reply;
use crate::results::{add_result, has_create, result_key};
use error_objects::{Read, Refusal, error_reply};
use http_messages::Reply;
use ident_rules::{NoMemory, StepError};
use json_texts::TextDraft;
use local_ids::LocalIds;
use outer_ends::Work;
use resource_schema::Schema;
use row_change::{Step, change};
use std::alloc::Global;
use task_forms::Operation;
use view_reads::{Recorder, View};

/// The room that the results of a list begin with; longer ones take more.
const ROOM: usize = 512;

/// What a list has come to.
#[derive(Drop)]
pub struct Listing {
    /// The local ids that its operations bound.
    pub lids: LocalIds,
    /// The results of its operations.
    pub results: TextDraft,
    /// Whether one of them was done.
    pub later: bool,
}

/// No operation done yet.
fn begun(alloc: Global) -> Listing
    ensures lids { result.lids ≡ [] }
    ensures results { IsDraftOf result.results result.later [] }
{
    let mut results = TextDraft::with_room(alloc, ROOM);
    results.add(b"{\"atomic:results\":[");
    Listing {
        lids: LocalIds::new(alloc),
        results,
        later: false,
    }
}

/// Does the operation with that number, and goes on with its result.
fn do_next<V: View>(
    alloc: Global,
    schema: &Schema,
    number: usize,
    operation: &Operation,
    list: &mut Listing,
    recorder: &mut Recorder<V>,
    work: &mut Work,
) -> Result<(), StepError<Refusal>>
    requires fit { FitsOperation schema.now operation.now }
    ensures follows { Follows recorder.old recorder.new }
    ensures tells { TellsNext schema.now V.cells number operation.now list.old list.new recorder.old recorder.new result }
    ensures reach { ReadsWithin schema.now V.cells (λ now. reach_operation now list.old.lids operation.now) recorder.old recorder.new }
{
    let step = Step {
        alloc,
        schema,
        pointer: "",
    };
    match change(&step, &mut list.lids, operation, recorder, work) {
        Read::Good(key) => {
            let created = result_key(operation, key);
            let later = list.later;
            add_result(schema, created, later, &mut list.results, recorder, work)?;
            list.later = true;
            Ok(())
        }
        Read::Refused(refusal) => {
            let told = refusal_under(alloc, number, refusal)?;
            Err(StepError::Because(told))
        }
        Read::NoMemory => Err(StepError::NoMemory),
    }
}

/// Does the operations in order, up to the first that is refused.
fn do_all<V: View>(
    alloc: Global,
    schema: &Schema,
    operations: &[Operation],
    recorder: &mut Recorder<V>,
    work: &mut Work,
) -> Result<Listing, StepError<Refusal>>
    requires fit { AllByRecursion (FitsOperation schema.now) operations.now }
    requires unwritten { recorder.old.writes ≡ [] }
    ensures { EndsList schema.now V.cells operations.now recorder.old recorder.new result }
{
    let mut list = begun(alloc);
    for (number, operation) in operations.iter().enumerate() {
        match do_next(alloc, schema, number, operation, &mut list, recorder, work) {
            Ok(()) => {}
            Err(stop) => return Err(stop),
        }
    }
    Ok(list)
}

/// Does a list of operations.
pub fn run_all<V: View>(
    alloc: Global,
    schema: &Schema,
    operations: &[Operation],
    recorder: &mut Recorder<V>,
    work: &mut Work,
) -> Result<Reply, NoMemory>
    requires fit { AllByRecursion (FitsOperation schema.now) operations.now }
    requires unwritten { recorder.old.writes ≡ [] }
    ensures { IfOk result (λ r. TellsList schema.now V.cells operations.now reply_form.Results recorder.old recorder.new r) }
{
    match do_all(alloc, schema, operations, recorder, work) {
        Ok(list) => results_reply(alloc, has_create(operations), list.later, list.results),
        Err(stop) => match stop {
            StepError::Because(refusal) => {
                recorder.forget_writes();
                error_reply(alloc, &refusal)
            }
            StepError::NoMemory => Err(NoMemory),
        },
    }
}
