//! Connections between ends in memory.
ghost use Rattle.std.specs.Prelude.{◌≡◌, ◌<◌, ◌≤◌, ◌+◌, [], ◌++◌, IfOk, IsSome, IfSome, None};
ghost use Rattle.http_messages.specs.declared.ends.SessionEnd.TheVariants as session_end;
ghost use Rattle.http_messages.specs.declared.limits.TheConstants.{MESSAGE_LIMIT};
ghost use Rattle.http_messages.specs.ReplyText.{unavailable_text};
ghost use Rattle.session_engine.specs.Plans.{TaskPlans, plans_of};
ghost use Rattle.session_engine.specs.Seen.{FitNext};
ghost use Rattle.replay_runs.specs.Lines.{Rests, ReadsFrom, Answers, GivesUp, OnTask};

use http_messages::{Reply, SessionEnd, send_unavailable};
use ident_rules::NoMemory;
use outer_ends::{MemorySink, MemorySource};
use session_engine::{Limits, Next, Session, sessions_go_on};
use std::alloc::Global;
use task_forms::Planner;

/// The most bytes of one read of a stream.
const PIECE: usize = 8_192;

/// A session over bytes in memory.
#[derive(Drop)]
pub struct Line {
    /// What it reads.
    pub source: MemorySource,
    /// What it writes.
    pub sink: MemorySink,
    /// The session.
    pub session: Session,
}

impl Line {
    /// A connection that brings these bytes. Its one error is want of memory.
    pub fn new(alloc: Global, bytes: &[u8]) -> Result<Line, NoMemory>
        ensures { IfOk result (λ l. (plans : TaskPlans) → Rests plans bytes.now [] l) }
    {
        sessions_go_on();
        let source = MemorySource::new(Vec::from_slice(alloc, bytes)?, PIECE, Vec::new(alloc));
        let sink = MemorySink::new(alloc, Vec::new(alloc));
        let session = Session::new(alloc, Limits::standard())?;
        Ok(Line {
            source,
            sink,
            session,
        })
    }

    /// Writes the text for want of memory.
    fn write_unavailable(&mut self) -> Result<(), NoMemory>
        ensures source { self.new.source ≡ self.old.source }
        ensures session { self.new.session ≡ self.old.session }
        ensures sends { IfOk result (λ _. self.new.sink.written ≡ self.old.sink.written ++ unavailable_text) }
    {
        match send_unavailable(&mut self.sink) {
            Ok(()) => Ok(()),
            Err(_) => Err(NoMemory),
        }
    }

    /// Reads on to the next task or the end. A fault of an end in memory is want of memory of the whole call.
    pub fn read<P: Planner>(&mut self, alloc: Global, planner: &P) -> Result<Next, NoMemory>
        requires few { self.old.session.answered < MESSAGE_LIMIT }
        requires free { self.old.session.pending ≡ None }
        ensures reads { IfOk result (λ r. ReadsFrom (plans_of (P.planned planner.now)) self.old self.new r) }
        ensures fit { IfOk result (λ r. FitNext (P.fit planner.now) r) }
        ensures answered { IfOk result (λ r. OnTask r (self.old.session.answered ≤ self.new.session.answered)) }
        ensures asked { IfOk result (λ r. OnTask r (IsSome self.new.session.pending × (self.new.session.answered < MESSAGE_LIMIT))) }
    {
        sessions_go_on();
        match self
            .session
            .next(alloc, planner, &mut self.source, &mut self.sink)
        {
            Next::Task(task) => Ok(Next::Task(task)),
            Next::Ended(SessionEnd::Closed) => Ok(Next::Ended(SessionEnd::Closed)),
            Next::Ended(SessionEnd::Refused(status)) => Ok(Next::Ended(SessionEnd::Refused(
                status,
            ))),
            Next::Ended(SessionEnd::CutShort) => Ok(Next::Ended(SessionEnd::CutShort)),
            Next::Ended(SessionEnd::NoMemory) => {
                self.write_unavailable()?;
                Ok(Next::Ended(SessionEnd::NoMemory))
            }
            Next::Ended(SessionEnd::ReadFault) => Err(NoMemory),
            Next::Ended(SessionEnd::WriteFault) => Err(NoMemory),
            Next::Ended(SessionEnd::Worn) => Err(NoMemory),
        }
    }

    /// Answers the task that waits. A fault of an end in memory is want of memory of the whole call.
    pub fn answer(&mut self, reply: &Reply) -> Result<Option<SessionEnd>, NoMemory>
        requires pending { IsSome self.old.session.pending }
        requires few { self.old.session.answered < MESSAGE_LIMIT }
        ensures answers { IfOk result (λ r. Answers reply.now self.old self.new r) }
        ensures closes { IfOk result (λ r. IfSome r (λ e. e ≡ session_end.Closed)) }
        ensures counts { IfOk result (λ r. self.new.session.answered ≡ self.old.session.answered + 1) }
    {
        sessions_go_on();
        match self.session.send(reply, &mut self.sink) {
            None => Ok(None),
            Some(SessionEnd::Closed) => Ok(Some(SessionEnd::Closed)),
            Some(_) => Err(NoMemory),
        }
    }

    /// Ends at a task for want of memory.
    pub fn run_out(&mut self) -> Result<(), NoMemory>
        ensures { IfOk result (λ _. GivesUp self.old self.new) }
    {
        sessions_go_on();
        self.write_unavailable()?;
        Ok(())
    }
}
