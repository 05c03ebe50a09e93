ghost use Rattle.std.specs.Prelude.{◌≡◌, ◌+◌, ◌<◌, ◌≤◌, IfOk, length};
ghost use Rattle.task_forms.specs.declared.tasks.Task.{Task as Asked};
ghost use Rattle.history_model.specs.Trials.{IsTried};
ghost use Rattle.ordered_pages.specs.Tree.{map_of};
ghost use Rattle.commit_core.specs.Serving.{IsPassOf};
ghost use Rattle.shared_desk.specs.Tries.{AnswerLeaves, TryLeaves};

use crate::gates::CountedGate;
use commit_core::{
    Attempt, CommitEnd, Core, REFUSAL_LIMIT, Service, SettleEnd, Snapshot, Trial, try_task,
};
use history_lock::Pass;
use http_messages::Reply;
use ident_rules::NoMemory;
use outer_ends::{Gate, Work};
use std::alloc::Global;
use std::sync::Wait;
use task_forms::{DeskEnd, Entry, Task};
use trial_subject::Subject;

/// What one try of a task came to.
pub(crate) enum TryEnd {
    /// Its entry joined the history.
    Done(Reply),
    /// Its commit was refused.
    Refused(Attempt),
    /// There is no reply.
    Ended(DeskEnd),
}

// A trial on a snapshot, which is given up then: nodes that it shares with the store would be copied by the commit.
fn trial_on<S: Subject + Drop>(
    alloc: Global,
    service: &Service<S>,
    snapshot: Snapshot,
    attempt: &Attempt,
    work: &mut Work,
) -> Result<Trial, NoMemory>
    requires fit { (S.meaning (S.kind service.now.subject)).fit attempt.now.task }
    requires last { attempt.now.last ≤ snapshot.at }
    ensures at { IfOk result (λ t. t.at ≡ snapshot.at) }
    ensures tried { IfOk result (λ t. IsTried (S.meaning (S.kind service.now.subject)) (map_of snapshot.pages) attempt.now.task t.reads t.writes t.reply) }
{
    try_task(alloc, service.subject(), &snapshot, attempt, work)
}

// Tries the task on a snapshot with the lock free, passes the gate, and commits.
pub(crate) fn try_once<S: Subject + Drop, G: Gate, R: Wait>(
    rt: &R,
    alloc: Global,
    service: &Service<S>,
    gate: &mut CountedGate<G>,
    pass: Pass<Core<S>, Entry, S::Kind>,
    attempt: Attempt,
) -> (Pass<Core<S>, Entry, S::Kind>, TryEnd)
    requires own { IsPassOf S.kind service.now pass }
    requires refused { attempt.refused < 3 }
    requires last { attempt.last ≤ pass.view.first + length pass.view.seen }
    requires fit { (S.meaning (S.kind service.now.subject)).fit attempt.task }
    ensures own { IsPassOf S.kind service.now result.0 }
    ensures leaves { TryLeaves (S.meaning (S.kind service.now.subject)) pass attempt result.0 result.1 }
{
    let mut work = Work::new();
    let (pass, snapshot) = service.begin(rt, pass);
    let Ok(snapshot) = snapshot else {
        return (pass, TryEnd::Ended(DeskEnd::NoMemory));
    };
    let Ok(trial) = trial_on(alloc, service, snapshot, &attempt, &mut work) else {
        return (pass, TryEnd::Ended(DeskEnd::NoMemory));
    };
    gate.pass();
    let (pass, end) = service.commit(rt, pass, attempt, trial, &mut work);
    match end {
        CommitEnd::Done(entry) => (pass, TryEnd::Done(entry.reply)),
        CommitEnd::Stale(attempt, _why) => (pass, TryEnd::Refused(attempt)),
        CommitEnd::NoMemory(_attempt) => (pass, TryEnd::Ended(DeskEnd::NoMemory)),
        CommitEnd::Worn(_attempt) => (pass, TryEnd::Ended(DeskEnd::Worn)),
    }
}

// Settles a task that was refused three times.
fn settle<S: Subject + Drop, R: Wait>(
    rt: &R,
    alloc: Global,
    service: &Service<S>,
    pass: Pass<Core<S>, Entry, S::Kind>,
    attempt: Attempt,
) -> (Pass<Core<S>, Entry, S::Kind>, Result<Reply, DeskEnd>)
    requires own { IsPassOf S.kind service.now pass }
    requires refused { attempt.refused ≡ 3 }
    requires fit { (S.meaning (S.kind service.now.subject)).fit attempt.task }
    ensures own { IsPassOf S.kind service.now result.0 }
    ensures leaves { AnswerLeaves (S.meaning (S.kind service.now.subject)) pass attempt.task result.0 result.1 }
{
    let mut work = Work::new();
    let (pass, end) = service.settle(rt, alloc, pass, attempt, &mut work);
    match end {
        SettleEnd::Done(entry) => (pass, Ok(entry.reply)),
        SettleEnd::NoMemory(_attempt) => (pass, Err(DeskEnd::NoMemory)),
        SettleEnd::Worn(_attempt) => (pass, Err(DeskEnd::Worn)),
    }
}

// Tries the task until its commit is done, three times at most; then settles it.
pub(crate) fn answered<S: Subject + Drop, G: Gate, R: Wait>(
    rt: &R,
    alloc: Global,
    service: &Service<S>,
    gate: &mut CountedGate<G>,
    pass: Pass<Core<S>, Entry, S::Kind>,
    task: Task,
) -> (Pass<Core<S>, Entry, S::Kind>, Result<Reply, DeskEnd>)
    requires own { IsPassOf S.kind service.now pass }
    requires fit { (S.meaning (S.kind service.now.subject)).fit task }
    ensures own { IsPassOf S.kind service.now result.0 }
    ensures leaves { AnswerLeaves (S.meaning (S.kind service.now.subject)) pass task result.0 result.1 }
{
    let mut pass = pass;
    let mut attempt = Attempt::new(task);
    while attempt.refused() < REFUSAL_LIMIT {
        let (now, end) = try_once(rt, alloc, service, gate, pass, attempt);
        pass = now;
        match end {
            TryEnd::Done(reply) => return (pass, Ok(reply)),
            TryEnd::Refused(again) => attempt = again,
            TryEnd::Ended(end) => return (pass, Err(end)),
        }
    }
    settle(rt, alloc, service, pass, attempt)
}
