//! Streams that take turns at one core.
ghost use Rattle.std.specs.Prelude.{◌≡◌, ◌<◌, IfOk, IsSome, IsNone, None, OnOk};
ghost use Rattle.http_messages.specs.declared.limits.TheConstants.{MESSAGE_LIMIT};
ghost use Rattle.task_forms.specs.declared.tasks.Task.{Task as StoreTask};
ghost use Rattle.session_engine.specs.Plans.{plans_of};
ghost use Rattle.core_steps.specs.Stepping.{MayStep, IsFitIn};
ghost use Rattle.replay_runs.specs.Streams.{StepsFrom, MayGo, left_in, IsNew};

use crate::lines::Line;
use commit_core::Core;
use core_steps::{StepEnd, Stepper};
use http_messages::SessionEnd;
use ident_rules::NoMemory;
use outer_ends::Work;
use run_model::entries_grow;
use session_engine::Next;
use std::alloc::Global;
use task_forms::Planner;
use trial_subject::Subject;

/// One connection, and the task that it waits for.
#[derive(Drop)]
pub struct Stream {
    /// Its bytes.
    pub line: Line,
    /// Its task.
    pub stepper: Stepper,
    /// How it has ended, if it has.
    pub end: Option<SessionEnd>,
    /// Its refused commits.
    pub refused: u64,
}

/// A step of the task that a stream waits for. The answer is whether its entry joined.
fn go_on<S: Subject + Drop, P: Planner>(
    alloc: Global,
    planner: &P,
    core: &mut Core<S>,
    by: u32,
    stream: &mut Stream,
    work: &mut Work,
) -> Result<bool, NoMemory>
    requires may { MayStep core.old.tally.count stream.old.stepper }
    requires fit { IsFitIn (S.meaning (S.kind core.old.subject)) stream.old.stepper }
    requires pending { IsSome stream.old.line.session.pending }
    requires few { stream.old.line.session.answered < MESSAGE_LIMIT }
    requires goes { stream.old.end ≡ None }
    ensures subject { core.new.subject ≡ core.old.subject }
    ensures window { core.new.tally.log.window ≡ core.old.tally.log.window }
    ensures falls { OnOk result (left_in stream.new < left_in stream.old) }
    ensures steps { IfOk result (λ b. StepsFrom S.kind S.meaning (plans_of (P.planned planner.now)) core.old core.new by None stream.old.stepper stream.old stream.new b) }
{
    entries_grow();
    match stream.stepper.step(alloc, core, by, work) {
        StepEnd::Moved => Ok(false),
        StepEnd::Refused(_) => {
            let Some(refused) = stream.refused.checked_add(1) else {
                return Err(NoMemory);
            };
            stream.refused = refused;
            Ok(false)
        }
        StepEnd::Done(entry) => {
            stream.end = stream.line.answer(&entry.reply)?;
            Ok(true)
        }
        StepEnd::NoMemory => {
            stream.line.run_out()?;
            stream.end = Some(SessionEnd::NoMemory);
            Ok(false)
        }
        StepEnd::Worn => Err(NoMemory),
    }
}

/// A step of a stream that waits for no task: it reads on. The answer is whether an entry joined.
fn start<S: Subject + Drop, P: Planner>(
    alloc: Global,
    planner: &P,
    core: &mut Core<S>,
    by: u32,
    stream: &mut Stream,
    work: &mut Work,
) -> Result<bool, NoMemory>
    requires fit { (t : StoreTask) → P.fit planner.now t → (S.meaning (S.kind core.old.subject)).fit t }
    requires few { stream.old.line.session.answered < MESSAGE_LIMIT }
    requires goes { stream.old.end ≡ None }
    requires free { stream.old.line.session.pending ≡ None }
    requires rests { stream.old.stepper ≡ Stepper.Empty }
    ensures subject { core.new.subject ≡ core.old.subject }
    ensures window { core.new.tally.log.window ≡ core.old.tally.log.window }
    ensures falls { OnOk result (left_in stream.new < left_in stream.old) }
    ensures steps { IfOk result (λ b. StepsFrom S.kind S.meaning (plans_of (P.planned planner.now)) core.old core.new by None Stepper.Empty stream.old stream.new b) }
{
    match stream.line.read(alloc, planner)? {
        Next::Ended(end) => {
            stream.end = Some(end);
            Ok(false)
        }
        Next::Task(task) => {
            stream.stepper.give(task);
            let joined = go_on(alloc, planner, core, by, stream, work)?;
            Ok(joined)
        }
    }
}

impl Stream {
    /// A connection that brings these bytes, before its first step. Its one error is want of memory.
    pub fn new(alloc: Global, bytes: &[u8]) -> Result<Stream, NoMemory>
        ensures { IfOk result (λ s. IsNew bytes.now s) }
    {
        let line = Line::new(alloc, bytes)?;
        Ok(Stream {
            line,
            stepper: Stepper::new(),
            end: None,
            refused: 0,
        })
    }

    /// One step of a run: it reads on to its next task and takes a snapshot for it, or goes on with its task, or does nothing where it has
    /// ended. The answer is whether an entry joined. Its one error is want of memory of the whole run.
    pub fn step<S: Subject + Drop, P: Planner>(
        &mut self,
        alloc: Global,
        planner: &P,
        core: &mut Core<S>,
        by: u32,
        work: &mut Work,
    ) -> Result<bool, NoMemory>
        requires fit { (t : StoreTask) → P.fit planner.now t → (S.meaning (S.kind core.old.subject)).fit t }
        requires may { MayGo (S.meaning (S.kind core.old.subject)) core.old.tally.count self.old.end self.old.stepper self.old.line }
        ensures subject { core.new.subject ≡ core.old.subject }
        ensures window { core.new.tally.log.window ≡ core.old.tally.log.window }
        ensures falls { IsNone self.old.end → OnOk result (left_in self.new < left_in self.old) }
        ensures steps { IfOk result (λ b. StepsFrom S.kind S.meaning (plans_of (P.planned planner.now)) core.old core.new by self.old.end self.old.stepper self.old self.new b) }
    {
        if let Some(_) = self.end {
            return Ok(false);
        }
        if self.stepper.is_empty() {
            let joined = start(alloc, planner, core, by, self, work)?;
            return Ok(joined);
        }
        let joined = go_on(alloc, planner, core, by, self, work)?;
        Ok(joined)
    }
}
