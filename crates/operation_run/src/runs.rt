ghost use Rattle.std.specs.Prelude.{◌≡◌, [], IfOk};
ghost use Rattle.task_forms.specs.Fit.{IsFit};
ghost use Rattle.task_forms.specs.declared.tasks.Task.TheVariants as task;
ghost use Rattle.store_model.specs.Laws.{is_list_form};
ghost use Rattle.trial_steps.specs.Runners.{TellsList};

use crate::lists::run_all;
use crate::plain::run_one;
use http_messages::Reply;
use ident_rules::NoMemory;
use outer_ends::Work;
use resource_schema::Schema;
use std::alloc::Global;
use task_forms::{Operation, ReplyForm};
use view_reads::{Recorder, View};

/// Whether operations are answered as a list.
fn is_list(form: ReplyForm) -> bool
    ensures { result ≡ is_list_form form }
{
    matches!(form, ReplyForm::Results)
}

/// Does all operations of a request, or none (JSON:API 1.1, "Creating, Updating and Deleting Resources"; Atomic Operations
/// extension, "Processing"): the reply, and the recorder's writes then lead to the world after them.
///
/// They are done in their order, each in the world that the earlier ones leave and with the local ids that they bound. The
/// first that is refused ends the list: the reply is its error, seen from the request, and nothing is written. No row is kept
/// for the reply: a result is appended as soon as its operation is done. The recorder begins without writes; what it reads
/// lies in the reach of the operations. Its one error is want of memory, after which the writes mean nothing.
pub fn run_list<V: View>(
    alloc: Global,
    schema: &Schema,
    operations: &[Operation],
    form: ReplyForm,
    recorder: &mut Recorder<V>,
    work: &mut Work,
) -> Result<Reply, NoMemory>
    requires fit { IsFit schema.now (task.Change operations.now form) }
    requires unwritten { recorder.old.writes ≡ [] }
    ensures { IfOk result (λ r. TellsList schema.now V.cells operations.now form recorder.old recorder.new r) }
{
    if is_list(form) {
        return run_all(alloc, schema, operations, recorder, work);
    }
    match operations {
        [operation] => run_one(alloc, schema, operation, form, recorder, work),
        _ => unreachable!(),
    }
}
