//! Trials on a core of one's own, and what their commits come to.
ghost use Rattle.std.specs.Prelude.{◌≡◌, ◌<◌, IfOk, IfSome};
ghost use Rattle.task_forms.specs.declared.tasks.Task.{Task as StoreTask};

use commit_core::{Attempt, CommitEnd, Core, Snapshot, Trial, try_task};
use history_model::LOG_WINDOW;
use http_messages::Message;
use ident_rules::NoMemory;
use ordered_pages::Pages;
use outer_ends::Work;
use std::alloc::Global;
use task_forms::{Plan, Planner, Task};
use trial_subject::Subject;

/// The task of a message; None where the message alone decides its reply.
fn task_of<P: Planner>(
    alloc: Global,
    planner: &P,
    message: &Message,
) -> Result<Option<Task>, NoMemory>
    ensures { IfOk result (λ o. IfSome o (P.fit planner.now)) }
{
    match planner.plan(alloc, message)? {
        Plan::Run(task) => Ok(Some(task)),
        Plan::Fixed(_) => Ok(None),
    }
}

/// A trial of a message's task on a snapshot, which was not tried before.
pub fn trial_of<S: Subject + Drop, P: Planner>(
    alloc: Global,
    subject: &S,
    planner: &P,
    snapshot: &Snapshot,
    message: &Message,
) -> Result<Option<(Attempt, Trial)>, NoMemory>
    requires fit { (t : StoreTask) → P.fit planner.now t → (S.meaning (S.kind subject.now)).fit t }
    ensures fit { IfOk result (λ o. IfSome o (λ r. (S.meaning (S.kind subject.now)).fit r.0.task)) }
    ensures refused { IfOk result (λ o. IfSome o (λ r. r.0.refused ≡ 0)) }
    ensures last { IfOk result (λ o. IfSome o (λ r. r.0.last ≡ 0)) }
{
    let Some(task) = task_of(alloc, planner, message)? else {
        return Ok(None);
    };
    let attempt = Attempt::new(task);
    let mut work = Work::new();
    let trial = try_task(alloc, subject, snapshot, &attempt, &mut work)?;
    Ok(Some((attempt, trial)))
}

/// Tries a message's task on a snapshot of the core, and commits it. None where it has no task.
fn commit_on<S: Subject + Drop, P: Planner>(
    alloc: Global,
    core: &mut Core<S>,
    planner: &P,
    snapshot: &Snapshot,
    message: &Message,
) -> Result<Option<CommitEnd>, NoMemory>
    requires fit { (t : StoreTask) → P.fit planner.now t → (S.meaning (S.kind core.old.subject)).fit t }
    ensures subject { core.new.subject ≡ core.old.subject }
{
    let tried = trial_of(alloc, core.subject(), planner, snapshot, message)?;
    let Some((attempt, trial)) = tried else {
        return Ok(None);
    };
    let mut work = Work::new();
    Ok(Some(core.commit(0, attempt, trial, &mut work)))
}

/// Tries a message's task on the core as it is, and commits it. None where it has no task.
fn commit_new<S: Subject + Drop, P: Planner>(
    alloc: Global,
    core: &mut Core<S>,
    planner: &P,
    message: &Message,
) -> Result<Option<CommitEnd>, NoMemory>
    requires fit { (t : StoreTask) → P.fit planner.now t → (S.meaning (S.kind core.old.subject)).fit t }
    ensures subject { core.new.subject ≡ core.old.subject }
{
    let snapshot = core.begin()?;
    commit_on(alloc, core, planner, &snapshot, message)
}

/// Commits a message's task so many times. How often its entry joined.
fn commit_times<S: Subject + Drop, P: Planner>(
    alloc: Global,
    core: &mut Core<S>,
    planner: &P,
    message: &Message,
    times: u64,
) -> Result<u64, NoMemory>
    requires fit { (t : StoreTask) → P.fit planner.now t → (S.meaning (S.kind core.old.subject)).fit t }
    ensures subject { core.new.subject ≡ core.old.subject }
{
    let mut joined = 0_u64;
    'committing: for _ in 0..times {
        if let Some(CommitEnd::Done(_)) = commit_new(alloc, core, planner, message)? {
            joined = joined.saturating_add(1);
        }
    }
    Ok(joined)
}

/// What the commit of a trial comes to that was made before a message's task was committed so often, on a core that remembers `window`
/// writing entries.
pub fn end_of_old_trial<S: Subject + Drop, P: Planner>(
    alloc: Global,
    subject: S,
    planner: &P,
    message: &Message,
    window: usize,
    times: u64,
) -> Result<Option<CommitEnd>, NoMemory>
    requires window { 0 < window }
    requires fit { (t : StoreTask) → P.fit planner.now t → (S.meaning (S.kind subject)).fit t }
{
    let mut core = Core::new(alloc, subject, Pages::new(alloc), 0, window)?;
    let snapshot = core.begin()?;
    let tried = trial_of(alloc, core.subject(), planner, &snapshot, message)?;
    let Some((attempt, trial)) = tried else {
        return Ok(None);
    };
    if commit_times(alloc, &mut core, planner, message, times)? != times {
        return Ok(None);
    }
    let mut work = Work::new();
    Ok(Some(core.commit(0, attempt, trial, &mut work)))
}

/// What a message's task gives on a snapshot before and after many commits, and on a snapshot of then.
#[derive(Drop)]
pub struct SnapshotReads {
    /// On the snapshot.
    pub before: Trial,
    /// On the snapshot after the commits.
    pub later: Trial,
    /// On a snapshot of then.
    pub after: Trial,
    /// What the commit of a trial on the old snapshot comes to then.
    pub end: CommitEnd,
}

/// What a message's task gives on a snapshot. None where it has no task.
fn read_on<S: Subject + Drop, P: Planner>(
    alloc: Global,
    subject: &S,
    planner: &P,
    snapshot: &Snapshot,
    message: &Message,
) -> Result<Option<Trial>, NoMemory>
    requires fit { (t : StoreTask) → P.fit planner.now t → (S.meaning (S.kind subject.now)).fit t }
{
    match trial_of(alloc, subject, planner, snapshot, message)? {
        Some((_attempt, trial)) => Ok(Some(trial)),
        None => Ok(None),
    }
}

/// What a message's task gives on a snapshot of the core, and on one of now. None where it has no task.
fn reads_now<S: Subject + Drop, P: Planner>(
    alloc: Global,
    core: &Core<S>,
    planner: &P,
    kept: &Snapshot,
    message: &Message,
) -> Result<Option<(Trial, Trial)>, NoMemory>
    requires fit { (t : StoreTask) → P.fit planner.now t → (S.meaning (S.kind core.now.subject)).fit t }
{
    let now = core.begin()?;
    let Some(after) = read_on(alloc, core.subject(), planner, &now, message)? else {
        return Ok(None);
    };
    let Some(later) = read_on(alloc, core.subject(), planner, kept, message)? else {
        return Ok(None);
    };
    Ok(Some((later, after)))
}

/// The reads by a snapshot that was kept, and its end, where the first is known.
fn reads_then<S: Subject + Drop, P: Planner>(
    alloc: Global,
    core: &mut Core<S>,
    planner: &P,
    kept: &Snapshot,
    message: &Message,
    before: Trial,
) -> Result<Option<SnapshotReads>, NoMemory>
    requires fit { (t : StoreTask) → P.fit planner.now t → (S.meaning (S.kind core.old.subject)).fit t }
{
    let Some((later, after)) = reads_now(alloc, core, planner, kept, message)? else {
        return Ok(None);
    };
    let Some(end) = commit_on(alloc, core, planner, kept, message)? else {
        return Ok(None);
    };
    Ok(Some(SnapshotReads {
        before,
        later,
        after,
        end,
    }))
}

/// Reads by a snapshot before and after so many commits.
pub fn reads_of_snapshot<S: Subject + Drop, P: Planner>(
    alloc: Global,
    subject: S,
    planner: &P,
    reads: &Message,
    writes: &Message,
    times: u64,
) -> Result<Option<SnapshotReads>, NoMemory>
    requires fit { (t : StoreTask) → P.fit planner.now t → (S.meaning (S.kind subject)).fit t }
{
    let mut core = Core::new(alloc, subject, Pages::new(alloc), 0, LOG_WINDOW)?;
    let kept = core.begin()?;
    let Some(before) = read_on(alloc, core.subject(), planner, &kept, reads)? else {
        return Ok(None);
    };
    if commit_times(alloc, &mut core, planner, writes, times)? != times {
        return Ok(None);
    }
    reads_then(alloc, &mut core, planner, &kept, reads, before)
}
