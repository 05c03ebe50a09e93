ghost use Rattle.std.specs.Prelude.{◌≡◌, ◌≤◌};
ghost use Rattle.task_forms.specs.declared.tasks.Task.{Task as StoreTask};
ghost use Rattle.task_forms.specs.Fit.{IsFit};
ghost use Rattle.http_messages.specs.declared.limits.TheConstants.{MESSAGE_LIMIT};
ghost use Rattle.request_model.specs.Plans.{planned};
ghost use Rattle.session_engine.specs.Seen.{ServesAll, ServesEnd, EndCause};

use http_messages::SessionEnd;
use outer_ends::{Sink, Source};
use request_tasks::LentTasks;
use resource_schema::Schema;
use session_engine::{Driven, Limits, drive_counted};
use std::alloc::Global;
use task_forms::Desk;

/// Serves one connection as `serve_connection` does, and tells the messages that were answered and the entries that joined.
pub(crate) fn serve_counted<S: Source, K: Sink, D: Desk>(
    alloc: Global,
    schema: &Schema,
    limits: Limits,
    source: &mut S,
    sink: &mut K,
    desk: &mut D,
) -> Driven
    requires fit { (t : StoreTask) → IsFit schema.now t → (D.meaning (D.fixed desk.old)).fit t }
    ensures fixed { D.fixed desk.new ≡ D.fixed desk.old }
    ensures few { result.entries ≤ MESSAGE_LIMIT }
    ensures serves { ServesAll (planned schema.now) (D.stands desk.old) (D.stands desk.new) (S.told source.old) (S.told source.new) (K.told sink.old) (K.told sink.new) result }
    ensures cause { EndCause (S.told source.old) (S.told source.new) (K.told sink.old) (K.told sink.new) result.end }
{
    let planner = LentTasks { schema };
    drive_counted(alloc, limits, &planner, source, sink, desk)
}

/// Serves one connection over a schema and any desk: the messages of the source are answered in order, up to the end of the
/// session (RFC 9112, section 9). On want of memory it sends the 503 text, and on a worn desk the 507 text; if that write
/// fails, that is a write fault. A fault is answered only where the count of the source or of the sink rose.
///
/// The desk must take every task that the messages of the schema are planned to.
pub fn serve_connection<S: Source, K: Sink, D: Desk>(
    alloc: Global,
    schema: &Schema,
    limits: Limits,
    source: &mut S,
    sink: &mut K,
    desk: &mut D,
) -> SessionEnd
    requires fit { (t : StoreTask) → IsFit schema.now t → (D.meaning (D.fixed desk.old)).fit t }
    ensures fixed { D.fixed desk.new ≡ D.fixed desk.old }
    // For any lists for which the desk stood: it stands for lists that begin with them, and what was written is what the
    // messages of the input are to be sent, by the entries that joined.
    ensures serves { ServesEnd (planned schema.now) (D.stands desk.old) (D.stands desk.new) (S.told source.old) (S.told source.new) (K.told sink.old) (K.told sink.new) result }
    ensures cause { EndCause (S.told source.old) (S.told source.new) (K.told sink.old) (K.told sink.new) result }
{
    serve_counted(alloc, schema, limits, source, sink, desk).end
}
