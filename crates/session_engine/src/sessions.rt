ghost use Rattle.std.specs.Prelude.{◌≡◌, ◌<◌, ◌≤◌, [], IfOk, IfSome, IsSome};
ghost use Rattle.http_model.specs.Refusals.{refusal_of, code_of};
ghost use Rattle.session_engine.specs.Plans.{plans_of};
ghost use Rattle.session_engine.specs.Seen.{StepSees, StepCause, NextSees, NextServes, NextCause, Replies, ReplyCause, FitStep, FitNext};
ghost use Rattle.session_engine.specs.Finishing.{WritesRefusal, RefuseCause};
ghost use Rattle.http_messages.specs.declared.limits.TheConstants.{MESSAGE_LIMIT};

use crate::Limits;
use crate::messages::{Taken, take_message};
use error_objects::{Blame, Code, Refusal, error_reply};
use http_framing::{Buffer, closes, is_head};
use http_messages::{
    HeadFault, REPLY_ROOM, RefusedRest, Reply, SessionEnd, send_reply, send_reply_by,
};
use http_model::read_stays;
use ident_rules::NoMemory;
use outer_ends::{Failed, Sink, Source};
use std::alloc::Global;
use std::marker::Model;
use task_forms::{Plan, Planner, Task};

/// How the reply to the task that waits for it is to be written.
#[derive(Clone, Copy, Debug, PartialEq, Eq)]
pub struct Pending {
    /// Without a body.
    pub head_only: bool,
    /// With the line that closes the connection.
    pub close: bool,
}

/// What comes next of a session.
#[derive(Drop)]
pub enum Next {
    /// The next message is this task, and waits for its reply.
    Task(Task),
    /// The session has ended.
    Ended(SessionEnd),
}

/// What one message came to.
#[derive(Drop)]
pub enum Step {
    /// Its reply was fixed and was written.
    Answered,
    /// It is this task.
    Task(Task),
    /// It ended the session, or what stands in its place did.
    Ended(SessionEnd),
}

/// One connection, between two messages or at a task that has no reply yet, with room in which its replies are put together.
/// Contracts see how many messages were answered, the bytes that were read and not used, and how the reply that waits is to be
/// written.
#[derive(Drop)]
pub struct Session {
    answered: u64,
    buffer: Buffer,
    pending: Option<Pending>,
    room: Vec<u8>,
}

impl Model for Session {
    ghost use Rattle.std.specs.Prelude.{◌≤◌};
    ghost use Rattle.http_messages.specs.declared.limits.TheConstants.{MESSAGE_LIMIT};
    ghost use Rattle.session_engine.specs.States.{SessionState};

    ghost Value = { SessionState };

    ghost view = { λ s. record { answered = s.answered; buffer = s.buffer; pending = s.pending } };

    ghost invariant = { λ s. s.answered ≤ MESSAGE_LIMIT };
}

/// The code that is told for a reason to refuse a rest.
fn code_of(why: RefusedRest) -> Code
    ensures { result ≡ code_of why }
{
    match why {
        RefusedRest::Hopeless => Code::BadMessage,
        RefusedRest::TooLarge => Code::HeadTooLarge,
        RefusedRest::TooMany => Code::HeadTooLarge,
        RefusedRest::Head(HeadFault::Host) => Code::BadMessage,
        RefusedRest::Head(HeadFault::TwoFramings) => Code::BadMessage,
        RefusedRest::Head(HeadFault::BadCoding) => Code::BadMessage,
        RefusedRest::Head(HeadFault::UnknownCoding) => Code::UnknownCoding,
        RefusedRest::Head(HeadFault::BadLength) => Code::BadMessage,
        RefusedRest::Head(HeadFault::LongBody) => Code::BodyTooLarge,
        RefusedRest::Head(HeadFault::Expectation) => Code::UnknownExpectation,
        RefusedRest::BadChunk => Code::BadMessage,
        RefusedRest::LargeBody => Code::BodyTooLarge,
    }
}

/// The reply to a rest that is refused for that reason.
#[tactic(auto, unfolding(http_model::specs::Refusals::refusal_of))]
fn refusal_reply(alloc: Global, why: RefusedRest) -> Result<Reply, NoMemory>
    ensures { IfOk result (λ r. r ≡ refusal_of why) }
{
    let refusal = Refusal {
        code: code_of(why),
        blame: Blame::Nothing,
    };
    error_reply(alloc, &refusal)
}

/// Writes the reply to a rest that is refused.
fn refuse<K: Sink>(alloc: Global, why: RefusedRest, head_only: bool, sink: &mut K) -> SessionEnd
    ensures sends { WritesRefusal (refusal_of why) head_only (K.told sink.old) (K.told sink.new) result }
    ensures cause { RefuseCause (K.told sink.old) (K.told sink.new) result }
{
    match refusal_reply(alloc, why) {
        Err(NoMemory) => SessionEnd::NoMemory,
        Ok(reply) => match send_reply(&reply, head_only, true, sink) {
            Ok(()) => SessionEnd::Refused(reply.status),
            Err(Failed) => SessionEnd::WriteFault,
        },
    }
}

impl Session {
    ghost use Rattle.std.specs.Prelude.{None};

    /// A session before its first message. Its one error is want of memory.
    pub fn new(alloc: Global, _limits: Limits) -> Result<Session, NoMemory>
        ensures { IfOk result (λ s. s ≡ record { answered = 0; buffer = []; pending = None }) }
    {
        Ok(Session {
            answered: 0,
            buffer: Buffer::new(alloc)?,
            pending: None,
            room: vec![in alloc; 0u8; REPLY_ROOM]?,
        })
    }

    /// How many messages were answered.
    pub fn answered(&self) -> u64
        ensures is { result ≡ self.now.answered }
        ensures few { result ≤ MESSAGE_LIMIT }
    {
        self.answered
    }

    /// Writes a reply: in one call of the sink up to `REPLY_ROOM` bytes, else the head before the body.
    fn reply<K: Sink>(
        &mut self,
        pending: Pending,
        reply: &Reply,
        sink: &mut K,
    ) -> Option<SessionEnd>
        requires { self.old.answered < MESSAGE_LIMIT }
        ensures sends { Replies pending reply.now self.old self.new (K.told sink.old) (K.told sink.new) result }
        ensures cause { ReplyCause (K.told sink.old) (K.told sink.new) result }
    {
        self.pending = None;
        let room = self.room.as_mut_slice();
        match send_reply_by(room, reply, pending.head_only, pending.close, sink) {
            Err(Failed) => Some(SessionEnd::WriteFault),
            Ok(()) => {
                self.answered += 1;
                if pending.close {
                    Some(SessionEnd::Closed)
                } else {
                    None
                }
            }
        }
    }

    /// Writes the reply to the task that waits for it. None exactly where the reply was written and does not close the
    /// connection. Takes no memory.
    pub fn send<K: Sink>(&mut self, reply: &Reply, sink: &mut K) -> Option<SessionEnd>
        requires pending { IsSome self.old.pending }
        requires few { self.old.answered < MESSAGE_LIMIT }
        ensures sends { IfSome self.old.pending (λ p. Replies p reply.now self.old self.new (K.told sink.old) (K.told sink.new) result) }
        ensures cause { ReplyCause (K.told sink.old) (K.told sink.new) result }
    {
        match self.pending {
            Some(pending) => self.reply(pending, reply, sink),
            None => unreachable!(),
        }
    }

    /// Takes one message, and answers it where its reply is fixed.
    fn step<S: Source, K: Sink, P: Planner>(
        &mut self,
        alloc: Global,
        planner: &P,
        source: &mut S,
        sink: &mut K,
    ) -> Step
        requires { self.old.answered < MESSAGE_LIMIT }
        ensures sees { StepSees (plans_of (P.planned planner.now)) self.old self.new (S.told source.old) (S.told source.new) (K.told sink.old) (K.told sink.new) result }
        ensures fit { FitStep (P.fit planner.now) result }
        ensures cause { StepCause (S.told source.old) (S.told source.new) (K.told sink.old) (K.told sink.new) result }
    {
        match take_message(alloc, source, &mut self.buffer, sink) {
            Taken::Whole(message) => {
                let head_only = is_head(&message);
                let close = closes(&message, self.answered + 1);
                let pending = Pending { head_only, close };
                match planner.plan(alloc, &message) {
                    Err(NoMemory) => Step::Ended(SessionEnd::NoMemory),
                    Ok(Plan::Run(task)) => {
                        self.pending = Some(pending);
                        Step::Task(task)
                    }
                    Ok(Plan::Fixed(reply)) => match self.reply(pending, &reply, sink) {
                        None => Step::Answered,
                        Some(end) => Step::Ended(end),
                    },
                }
            }
            Taken::End => Step::Ended(SessionEnd::Closed),
            Taken::CutShort => Step::Ended(SessionEnd::CutShort),
            Taken::Refused(why, head_only) => Step::Ended(refuse(alloc, why, head_only, sink)),
            Taken::ReadFault => Step::Ended(SessionEnd::ReadFault),
            Taken::WriteFault => Step::Ended(SessionEnd::WriteFault),
            Taken::NoMemory => Step::Ended(SessionEnd::NoMemory),
        }
    }

    /// Answers the messages whose replies are fixed, up to one that is a task or to the end. The task that was given last has
    /// been answered by `send`; after an end no call is made. With `Ended(NoMemory)` the text that says so is still to be
    /// sent by the caller.
    pub fn next<S: Source, K: Sink, P: Planner>(
        &mut self,
        alloc: Global,
        planner: &P,
        source: &mut S,
        sink: &mut K,
    ) -> Next
        requires few { self.old.answered < MESSAGE_LIMIT }
        requires answered { self.old.pending ≡ None }
        // by the bytes that were seen, of any source,
        ensures sees { NextSees (plans_of (P.planned planner.now)) self.old self.new (S.told source.old) (S.told source.new) (K.told sink.old) (K.told sink.new) result }
        // and by all that stood there, where the source tells it
        ensures rest { NextServes (plans_of (P.planned planner.now)) self.old self.new (S.told source.old) (S.told source.new) (K.told sink.old) (K.told sink.new) result }
        ensures fit { FitNext (P.fit planner.now) result }
        ensures cause { NextCause (S.told source.old) (S.told source.new) (K.told sink.old) (K.told sink.new) result }
    {
        read_stays();
        'answering: loop {
            match self.step(alloc, planner, source, sink) {
                Step::Answered => (),
                Step::Task(task) => return Next::Task(task),
                Step::Ended(end) => return Next::Ended(end),
            }
        }
    }
}
