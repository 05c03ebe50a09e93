//! The one operation of a plain request.
ghost use Rattle.std.specs.Prelude.{◌≡◌, ◌<◌, ◌∷◌, [], false, IfOk, option_copied};
ghost use Rattle.std.specs.Option.{option_and_then};
ghost use Rattle.world_cells.specs.World.{row_at};
ghost use Rattle.task_forms.specs.Fit.{FitsOperation};
ghost use Rattle.store_model.specs.Laws.{is_list_form};
ghost use Rattle.store_model.specs.Reach.{is_row_in};
ghost use Rattle.trial_steps.specs.Found.{row_of};
ghost use Rattle.trial_steps.specs.Runners.{TellsList};
ghost use Rattle.trial_steps.specs.Steps.{LooksAt, Sees};
ghost use Rattle.operation_run.specs.Texts.{keys_of};
ghost use Rattle.operation_run.specs.Replies.{one_reply};

use crate::replies::one_reply;
use error_objects::{Read, error_reply};
use http_messages::Reply;
use ident_rules::{Key, NoMemory};
use local_ids::LocalIds;
use outer_ends::Work;
use resource_schema::Schema;
use row_change::{Step, change};
use std::alloc::Global;
use task_forms::{Operation, ReplyForm};
use view_reads::{Recorder, View};
use world_cells::{Cell, CellKey};

/// The reply to an operation whose row was found in a cell.
fn reply_found(
    alloc: Global,
    schema: &Schema,
    form: ReplyForm,
    found: Option<&Cell>,
) -> Result<Reply, NoMemory>
    requires plain { is_list_form form ≡ false }
    ensures { IfOk result (λ r. r ≡ one_reply schema.now form (row_of (option_copied found.entry))) }
{
    match found {
        Some(Cell::Row(row)) => one_reply(alloc, schema, form, Some(row)),
        _ => one_reply(alloc, schema, form, None),
    }
}

/// The reply to an operation that was done, with the row at a key as it now is.
fn done_reply<V: View>(
    alloc: Global,
    schema: &Schema,
    form: ReplyForm,
    key: Option<Key>,
    recorder: &mut Recorder<V>,
    work: &mut Work,
) -> Result<Reply, NoMemory>
    requires plain { is_list_form form ≡ false }
    ensures looks { LooksAt (is_row_in (keys_of key)) recorder.old recorder.new }
    ensures sees { Sees schema.now V.cells recorder.old recorder.new (λ now. IfOk result (λ r. r ≡ one_reply schema.now form (option_and_then (row_at now) key))) }
    ensures status { IfOk result (λ r. r.status < 400) }
{
    let Some(key) = key else {
        return one_reply(alloc, schema, form, None);
    };
    let found = recorder.get(&CellKey::Row(key), work)?;
    reply_found(alloc, schema, form, found)
}

/// Does the one operation of a plain request.
pub fn run_one<V: View>(
    alloc: Global,
    schema: &Schema,
    operation: &Operation,
    form: ReplyForm,
    recorder: &mut Recorder<V>,
    work: &mut Work,
) -> Result<Reply, NoMemory>
    requires fit { FitsOperation schema.now operation.now }
    requires plain { is_list_form form ≡ false }
    requires unwritten { recorder.old.writes ≡ [] }
    ensures { IfOk result (λ r. TellsList schema.now V.cells (operation.now ∷ []) form recorder.old recorder.new r) }
{
    let mut lids = LocalIds::new(alloc);
    let step = Step {
        alloc,
        schema,
        pointer: "",
    };
    match change(&step, &mut lids, operation, recorder, work) {
        Read::Good(key) => done_reply(alloc, schema, form, key, recorder, work),
        Read::Refused(refusal) => {
            recorder.forget_writes();
            error_reply(alloc, &refusal)
        }
        Read::NoMemory => Err(NoMemory),
    }
}
