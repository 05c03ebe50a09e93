ghost use Rattle.std.specs.Prelude.{◌≡◌, ◌≤◌, ◌*◌};
ghost use Rattle.http_messages.specs.declared.limits.TheConstants.{MESSAGE_LIMIT};
ghost use Rattle.task_forms.specs.declared.tasks.Task.{Task as StoreTask};
ghost use Rattle.connection_workers.specs.declared.workers.TheConstants.{QUOTA_LIMIT};
ghost use Rattle.connection_workers.specs.Visits.{is_worn};
ghost use Rattle.connection_workers.specs.Works.{HasEnded, WorksAll};

use outer_ends::{Failed, Listener};
use session_engine::{Limits, SessionEnd, drive_counted};
use std::alloc::Global;
use task_forms::{Desk, Planner};

/// The most connections that a worker may be told to serve.
pub const QUOTA_LIMIT: u64 = 1_000_000;

/// Why a worker ended.
#[derive(Clone, Copy, Debug, PartialEq, Eq)]
pub enum Cause {
    /// It served as many connections as it was to.
    Quota,
    /// No connection could be accepted.
    AcceptFault,
    /// The history has as many entries as it can hold.
    Worn,
}

/// What a worker did, and why it ended.
#[derive(Clone, Copy, Debug, PartialEq, Eq)]
pub struct WorkerEnd {
    /// The connections that were served.
    pub sessions: u64,
    /// The messages that were answered on them; those that were refused are not among these.
    pub requests: u64,
    /// The replies of the desk, each of which is one entry.
    pub entries: u64,
    /// Why it ended.
    pub cause: Cause,
}

/// Whether that end is that of a worn desk.
fn is_worn(end: SessionEnd) -> bool
    ensures { result ≡ is_worn end }
{
    match end {
        SessionEnd::Worn => true,
        SessionEnd::Closed => false,
        SessionEnd::Refused(_) => false,
        SessionEnd::CutShort => false,
        SessionEnd::ReadFault => false,
        SessionEnd::WriteFault => false,
        SessionEnd::NoMemory => false,
    }
}

/// Accepts connections, serves each up to its end, and gives it back, until `quota` of them were served, none could be
/// accepted, or the desk was worn. A session that ends in another way, also by a fault of its connection, is followed by
/// the next one. `AcceptFault` is answered only where the listener's count rose, `Worn` only where the last session, and no
/// other, ended so.
pub fn serve_worker<L: Listener, P: Planner, D: Desk>(
    alloc: Global,
    limits: Limits,
    planner: &P,
    listener: &mut L,
    desk: &mut D,
    quota: u64,
) -> WorkerEnd
    requires quota { quota ≤ QUOTA_LIMIT }
    requires fit { (t : StoreTask) → P.fit planner.now t → (D.meaning (D.fixed desk.old)).fit t }
    ensures fixed { D.fixed desk.new ≡ D.fixed desk.old }
    ensures live { (L.told listener.new).live ≡ (L.told listener.old).live }
    ensures requests { result.requests ≤ MESSAGE_LIMIT * result.sessions }
    ensures entries { result.entries ≤ MESSAGE_LIMIT * result.sessions }
    ensures cause { HasEnded (L.told listener.old).faults (L.told listener.new).faults quota result }
    // For any lists for which the desk stood: it stands for lists that begin with them, and what was written on each
    // connection is what the messages of its input are to be sent, by the entries that joined meanwhile.
    ensures works { WorksAll (P.planned planner.now) (D.stands desk.old) (D.stands desk.new) (L.told listener.old) (L.told listener.new) result }
{
    let mut sessions = 0;
    let mut requests = 0;
    let mut entries = 0;
    'serving: while sessions < quota {
        let (mut source, mut sink) = match listener.accept() {
            Ok(connection) => connection,
            Err(Failed) => {
                return WorkerEnd {
                    sessions,
                    requests,
                    entries,
                    cause: Cause::AcceptFault,
                };
            }
        };
        let driven = drive_counted(alloc, limits, planner, &mut source, &mut sink, desk);
        listener.done(source, sink);
        sessions += 1;
        requests += driven.answered;
        entries += driven.entries;
        if is_worn(driven.end) {
            return WorkerEnd {
                sessions,
                requests,
                entries,
                cause: Cause::Worn,
            };
        }
    }
    WorkerEnd {
        sessions,
        requests,
        entries,
        cause: Cause::Quota,
    }
}
