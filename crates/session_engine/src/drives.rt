ghost use Rattle.std.specs.Prelude.{◌≡◌, ◌≤◌, [], None};
ghost use Rattle.task_forms.specs.declared.tasks.Task.{Task as StoreTask};
ghost use Rattle.session_engine.specs.Seen.{ServesAll, ServesEnd, driven_by, EndCause};
ghost use Rattle.session_engine.specs.Finishing.{Finishes, FinishCause, WritesStop, StopCause};
ghost use Rattle.http_messages.specs.declared.limits.TheConstants.{MESSAGE_LIMIT};

use crate::{Limits, Next, Session};
use http_messages::{SessionEnd, Stop, send_stop, send_unavailable};
use http_model::read_stays;
use outer_ends::{Failed, Sink, Source};
use std::alloc::Global;
use task_forms::{Desk, DeskEnd, Planner};

/// How a session ended, how many messages it answered, and how many tasks the desk did.
#[derive(Clone, Copy, Debug, PartialEq, Eq)]
pub struct Driven {
    /// The end.
    pub end: SessionEnd,
    /// The messages that were answered.
    pub answered: u64,
    /// The replies of the desk, each of which is one entry.
    pub entries: u64,
}

/// How a session ended, and how many tasks the desk did.
pub struct Ending {
    end: SessionEnd,
    entries: u64,
}

/// Writes the text for want of memory behind that end.
fn finish<K: Sink>(end: SessionEnd, sink: &mut K) -> SessionEnd
    ensures sends { Finishes end (K.told sink.old) (K.told sink.new) result }
    ensures cause { FinishCause (K.told sink.old) (K.told sink.new) end result }
{
    match end {
        SessionEnd::NoMemory => match send_unavailable(sink) {
            Ok(()) => SessionEnd::NoMemory,
            Err(Failed) => SessionEnd::WriteFault,
        },
        SessionEnd::Closed => SessionEnd::Closed,
        SessionEnd::Refused(status) => SessionEnd::Refused(status),
        SessionEnd::CutShort => SessionEnd::CutShort,
        SessionEnd::ReadFault => SessionEnd::ReadFault,
        SessionEnd::WriteFault => SessionEnd::WriteFault,
        SessionEnd::Worn => SessionEnd::Worn,
    }
}

/// Writes the text for a worn desk.
fn stop<K: Sink>(sink: &mut K) -> SessionEnd
    ensures sends { WritesStop (K.told sink.old) (K.told sink.new) result }
    ensures cause { StopCause (K.told sink.old) (K.told sink.new) result }
{
    match send_stop(Stop::Worn, sink) {
        Ok(()) => SessionEnd::Worn,
        Err(Failed) => SessionEnd::WriteFault,
    }
}

/// Answers the messages of a session that has answered none, up to its end.
fn serve<S: Source, K: Sink, P: Planner, D: Desk>(
    alloc: Global,
    planner: &P,
    source: &mut S,
    sink: &mut K,
    desk: &mut D,
    session: &mut Session,
) -> Ending
    requires fresh { session.old ≡ record { answered = 0; buffer = []; pending = None } }
    requires fit { (t : StoreTask) → P.fit planner.now t → (D.meaning (D.fixed desk.old)).fit t }
    ensures fixed { D.fixed desk.new ≡ D.fixed desk.old }
    ensures few { result.entries ≤ MESSAGE_LIMIT }
    ensures serves { ServesAll (P.planned planner.now) (D.stands desk.old) (D.stands desk.new) (S.told source.old) (S.told source.new) (K.told sink.old) (K.told sink.new) (driven_by session.new result) }
    ensures cause { EndCause (S.told source.old) (S.told source.new) (K.told sink.old) (K.told sink.new) result.end }
{
    read_stays();
    let mut entries = 0;
    'serving: loop {
        match session.next(alloc, planner, source, sink) {
            Next::Ended(end) => {
                let end = finish(end, sink);
                return Ending { end, entries };
            }
            Next::Task(task) => match desk.answer(task) {
                Err(DeskEnd::NoMemory) => {
                    let end = finish(SessionEnd::NoMemory, sink);
                    return Ending { end, entries };
                }
                Err(DeskEnd::Worn) => {
                    let end = stop(sink);
                    return Ending { end, entries };
                }
                Ok(reply) => {
                    entries += 1;
                    match session.send(&reply, sink) {
                        None => (),
                        Some(end) => return Ending { end, entries },
                    }
                }
            },
        }
    }
}

/// Serves one connection: answers its messages in order, by the planner or by the desk, up to its end. On want of memory
/// it sends the 503 text and on a worn desk the 507 text; if that write fails, that is a write fault. A fault is answered
/// only where the count of the source or of the sink rose.
pub fn drive_counted<S: Source, K: Sink, P: Planner, D: Desk>(
    alloc: Global,
    limits: Limits,
    planner: &P,
    source: &mut S,
    sink: &mut K,
    desk: &mut D,
) -> Driven
    requires fit { (t : StoreTask) → P.fit planner.now t → (D.meaning (D.fixed desk.old)).fit t }
    ensures fixed { D.fixed desk.new ≡ D.fixed desk.old }
    ensures few { (result.answered ≤ MESSAGE_LIMIT) × (result.entries ≤ MESSAGE_LIMIT) }
    // For any lists for which the desk stood: it stands for lists that begin with them, and what was written is what the
    // messages of the input are to be sent, by the entries that joined, which are as many as is said.
    ensures serves { ServesAll (P.planned planner.now) (D.stands desk.old) (D.stands desk.new) (S.told source.old) (S.told source.new) (K.told sink.old) (K.told sink.new) result }
    ensures cause { EndCause (S.told source.old) (S.told source.new) (K.told sink.old) (K.told sink.new) result.end }
{
    read_stays();
    let Ok(mut session) = Session::new(alloc, limits) else {
        let end = finish(SessionEnd::NoMemory, sink);
        return Driven {
            end,
            answered: 0,
            entries: 0,
        };
    };
    let Ending { end, entries } = serve(alloc, planner, source, sink, desk, &mut session);
    Driven {
        end,
        answered: session.answered(),
        entries,
    }
}

/// Serves one connection as `drive_counted` does, and tells its end alone.
pub fn drive<S: Source, K: Sink, P: Planner, D: Desk>(
    alloc: Global,
    limits: Limits,
    planner: &P,
    source: &mut S,
    sink: &mut K,
    desk: &mut D,
) -> SessionEnd
    requires fit { (t : StoreTask) → P.fit planner.now t → (D.meaning (D.fixed desk.old)).fit t }
    ensures fixed { D.fixed desk.new ≡ D.fixed desk.old }
    ensures serves { ServesEnd (P.planned planner.now) (D.stands desk.old) (D.stands desk.new) (S.told source.old) (S.told source.new) (K.told sink.old) (K.told sink.new) result }
    ensures cause { EndCause (S.told source.old) (S.told source.new) (K.told sink.old) (K.told sink.new) result }
{
    drive_counted(alloc, limits, planner, source, sink, desk).end
}
