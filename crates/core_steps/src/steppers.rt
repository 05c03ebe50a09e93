ghost use Rattle.std.specs.Prelude.{◌≡◌, ◌<◌, ◌≤◌, ◌↔◌, IsTrue};
ghost use Rattle.commit_core.specs.Attempts.{attempt_at};
ghost use Rattle.core_steps.specs.Stepping.{MayStep, IsFitIn, Moves, UnlessJoined, StepCause};
ghost use Rattle.core_steps.specs.Steps.{Steps};

use commit_core::{
    Attempt, CommitEnd, Core, REFUSAL_LIMIT, Setback, SettleEnd, Snapshot, Trial, try_task,
};
use ident_rules::NoMemory;
use outer_ends::Work;
use run_model::last_is_answered;
use std::alloc::Global;
use std::mem::replace;
use task_forms::{Entry, Task};
use trial_subject::Subject;

/// Where the task of a stream stands, if it has one.
#[derive(Drop)]
pub enum Stepper {
    /// There is no task.
    Empty,
    /// A task, before its next snapshot, or before it is settled.
    Waiting(Attempt),
    /// A snapshot was taken for it.
    Snapped(Attempt, Snapshot),
    /// It was tried on its snapshot.
    Tried(Attempt, Trial),
}

/// What a step came to.
#[derive(Drop)]
pub enum StepEnd {
    /// A snapshot was taken, or the task was tried.
    Moved,
    /// Its commit was refused.
    Refused(Setback),
    /// Its entry joined the history.
    Done(Entry),
    /// Want of memory; the task is let go.
    NoMemory,
    /// The history takes no further entry; the task is let go.
    Worn,
}

/// Takes a snapshot for a task.
fn snap<S: Subject + Drop>(core: &mut Core<S>, by: u32, attempt: Attempt) -> (Stepper, StepEnd)
    requires few { attempt.refused < 3 }
    requires last { attempt.last ≤ core.old.tally.count }
    ensures moves { Moves (Stepper.Waiting attempt) by result.1 result.0 }
    ensures cause { StepCause core.old.tally.count result.1 }
    ensures kept { core.new ≡ core.old }
    ensures steps { Steps S.kind S.meaning core.old core.new by (Stepper.Waiting attempt) result.0 result.1 }
{
    match core.begin() {
        Ok(snapshot) => (Stepper::Snapped(attempt, snapshot), StepEnd::Moved),
        Err(NoMemory) => (Stepper::Empty, StepEnd::NoMemory),
    }
}

/// Tries a task on its snapshot.
fn run<S: Subject + Drop>(
    alloc: Global,
    core: &mut Core<S>,
    by: u32,
    attempt: Attempt,
    snapshot: Snapshot,
    work: &mut Work,
) -> (Stepper, StepEnd)
    requires few { attempt.refused < 3 }
    requires last { attempt.last ≤ snapshot.at }
    requires fit { (S.meaning (S.kind core.old.subject)).fit attempt.task }
    ensures moves { Moves (Stepper.Snapped attempt snapshot) by result.1 result.0 }
    ensures cause { StepCause core.old.tally.count result.1 }
    ensures kept { core.new ≡ core.old }
    ensures steps { Steps S.kind S.meaning core.old core.new by (Stepper.Snapped attempt snapshot) result.0 result.1 }
{
    match try_task(alloc, core.subject(), &snapshot, &attempt, work) {
        Ok(trial) => (Stepper::Tried(attempt, trial), StepEnd::Moved),
        Err(NoMemory) => (Stepper::Empty, StepEnd::NoMemory),
    }
}

/// Commits the trial of a task.
fn offer<S: Subject + Drop>(
    core: &mut Core<S>,
    by: u32,
    attempt: Attempt,
    trial: Trial,
    work: &mut Work,
) -> (Stepper, StepEnd)
    requires few { attempt.refused < 3 }
    requires last { attempt.last ≤ trial.at }
    requires fit { (S.meaning (S.kind core.old.subject)).fit attempt.task }
    ensures subject { core.new.subject ≡ core.old.subject }
    ensures window { core.new.tally.log.window ≡ core.old.tally.log.window }
    ensures moves { Moves (Stepper.Tried attempt trial) by result.1 result.0 }
    ensures cause { StepCause core.old.tally.count result.1 }
    ensures kept { UnlessJoined result.1 (core.new ≡ core.old) }
    ensures steps { Steps S.kind S.meaning core.old core.new by (Stepper.Tried attempt trial) result.0 result.1 }
{
    last_is_answered::<S>();
    match core.commit(by, attempt, trial, work) {
        CommitEnd::Done(entry) => (Stepper::Empty, StepEnd::Done(entry)),
        CommitEnd::Stale(attempt, why) => (Stepper::Waiting(attempt), StepEnd::Refused(why)),
        CommitEnd::NoMemory(_) => (Stepper::Empty, StepEnd::NoMemory),
        CommitEnd::Worn(_) => (Stepper::Empty, StepEnd::Worn),
    }
}

/// Settles a task.
fn finish<S: Subject + Drop>(
    alloc: Global,
    core: &mut Core<S>,
    by: u32,
    attempt: Attempt,
    work: &mut Work,
) -> (Stepper, StepEnd)
    requires refused { attempt.refused ≡ 3 }
    requires fit { (S.meaning (S.kind core.old.subject)).fit attempt.task }
    ensures subject { core.new.subject ≡ core.old.subject }
    ensures window { core.new.tally.log.window ≡ core.old.tally.log.window }
    ensures moves { Moves (Stepper.Waiting attempt) by result.1 result.0 }
    ensures cause { StepCause core.old.tally.count result.1 }
    ensures kept { UnlessJoined result.1 (core.new ≡ core.old) }
    ensures steps { Steps S.kind S.meaning core.old core.new by (Stepper.Waiting attempt) result.0 result.1 }
{
    last_is_answered::<S>();
    match core.settle(alloc, by, attempt, work) {
        SettleEnd::Done(entry) => (Stepper::Empty, StepEnd::Done(entry)),
        SettleEnd::NoMemory(_) => (Stepper::Empty, StepEnd::NoMemory),
        SettleEnd::Worn(_) => (Stepper::Empty, StepEnd::Worn),
    }
}

/// Takes one step.
fn advance<S: Subject + Drop>(
    alloc: Global,
    core: &mut Core<S>,
    by: u32,
    stepper: Stepper,
    work: &mut Work,
) -> (Stepper, StepEnd)
    requires may { MayStep core.old.tally.count stepper }
    requires fit { IsFitIn (S.meaning (S.kind core.old.subject)) stepper }
    ensures subject { core.new.subject ≡ core.old.subject }
    ensures window { core.new.tally.log.window ≡ core.old.tally.log.window }
    ensures moves { Moves stepper by result.1 result.0 }
    ensures cause { StepCause core.old.tally.count result.1 }
    ensures kept { UnlessJoined result.1 (core.new ≡ core.old) }
    ensures steps { Steps S.kind S.meaning core.old core.new by stepper result.0 result.1 }
{
    match stepper {
        Stepper::Empty => unreachable!(),
        Stepper::Waiting(attempt) => {
            if attempt.refused == REFUSAL_LIMIT {
                return finish(alloc, core, by, attempt, work);
            }
            snap(core, by, attempt)
        }
        Stepper::Snapped(attempt, snapshot) => run(alloc, core, by, attempt, snapshot, work),
        Stepper::Tried(attempt, trial) => offer(core, by, attempt, trial, work),
    }
}

impl Stepper {
    /// Without a task.
    pub fn new() -> Stepper
        ensures { result ≡ Stepper.Empty }
    {
        Stepper::Empty
    }

    /// Whether it has no task.
    pub fn is_empty(&self) -> bool
        ensures { IsTrue result ↔ (self.now ≡ Stepper.Empty) }
    {
        matches!(self, Stepper::Empty)
    }

    /// Gives it a task.
    pub fn give(&mut self, task: Task)
        requires { self.old ≡ Stepper.Empty }
        ensures { self.new ≡ Stepper.Waiting (attempt_at task 0 0) }
    {
        *self = Stepper::Waiting(Attempt::new(task));
    }

    /// One step of its task: a snapshot, a try, a commit, or the settling of a task that was refused three times. For every legal history for which
    /// the core stood, and of which the stepper's snapshot and trial are, it is one event of a run, and the core then stands for the history
    /// with the event's entry.
    ///
    /// Behind `Done`, `NoMemory` and `Worn` it has no task. `Worn` comes exactly where an entry would join a history of `ENTRY_LIMIT` entries.
    /// After any answer but `Done` the core is as before.
    pub fn step<S: Subject + Drop>(
        &mut self,
        alloc: Global,
        core: &mut Core<S>,
        by: u32,
        work: &mut Work,
    ) -> StepEnd
        requires may { MayStep core.old.tally.count self.old }
        requires fit { IsFitIn (S.meaning (S.kind core.old.subject)) self.old }
        ensures subject { core.new.subject ≡ core.old.subject }
        ensures window { core.new.tally.log.window ≡ core.old.tally.log.window }
        ensures moves { Moves self.old by result self.new }
        ensures cause { StepCause core.old.tally.count result }
        ensures kept { UnlessJoined result (core.new ≡ core.old) }
        ensures steps { Steps S.kind S.meaning core.old core.new by self.old self.new result }
    {
        let (now, end) = advance(alloc, core, by, replace(self, Stepper::Empty), work);
        *self = now;
        end
    }
}
