ghost use Rattle.std.specs.Prelude.{◌≡◌, ◌≤◌, IfOk, IfErr, OnErr};
ghost use Rattle.task_forms.specs.Desks.{IsWornEnd, last_number};
ghost use Rattle.history_model.specs.Trials.{IsTried};
ghost use Rattle.ordered_pages.specs.Tree.{map_of};
ghost use Rattle.local_desk.specs.Alone.{EntryJoins, IsEntryOf, StandsForSome};

use commit_core::{Attempt, CommitEnd, Core, REFUSAL_LIMIT, SettleEnd, Trial, try_task};
use ident_rules::NoMemory;
use outer_ends::Work;
use std::alloc::Global;
use task_forms::{DeskEnd, Entry, Task};
use trial_subject::Subject;

/// A trial on a snapshot of the core as it is, which is given up then: nodes that it shares with the core would be copied by the commit.
fn trial_now<S: Subject + Drop>(
    alloc: Global,
    core: &Core<S>,
    attempt: &Attempt,
    work: &mut Work,
) -> Result<Trial, NoMemory>
    requires fit { (S.meaning (S.kind core.now.subject)).fit attempt.now.task }
    requires last { attempt.now.last ≤ core.now.tally.count }
    ensures at { IfOk result (λ t. t.at ≡ core.now.tally.count) }
    ensures tried { IfOk result (λ t. IsTried (S.meaning (S.kind core.now.subject)) (map_of core.now.pages) attempt.now.task t.reads t.writes t.reply) }
{
    let snapshot = core.begin()?;
    try_task(alloc, core.subject(), &snapshot, attempt, work)
}

/// The entry of a task that was refused three times: it is run on the core as it is. After an error the core is as before.
fn settled<S: Subject + Drop>(
    alloc: Global,
    core: &mut Core<S>,
    by: u32,
    attempt: Attempt,
    work: &mut Work,
) -> Result<Entry, DeskEnd>
    requires refused { attempt.refused ≡ 3 }
    requires fit { (S.meaning (S.kind core.old.subject)).fit attempt.task }
    ensures subject { core.new.subject ≡ core.old.subject }
    ensures entry { IfOk result (IsEntryOf by attempt.task) }
    ensures joins { IfOk result (EntryJoins S.kind S.meaning core.old core.new) }
    ensures kept { OnErr result (core.new ≡ core.old) }
    ensures worn { IfErr result (λ e. IsWornEnd e → core.old.tally.count ≡ last_number) }
{
    match core.settle(alloc, by, attempt, work) {
        SettleEnd::Done(entry) => Ok(entry),
        SettleEnd::NoMemory(_attempt) => Err(DeskEnd::NoMemory),
        SettleEnd::Worn(_attempt) => Err(DeskEnd::Worn),
    }
}

/// The entry of a task over a core of one's own: it is tried on the core as it is and committed, three times at most, and then settled. For every
/// legal history for which the core stood it then stands for that history with the entry. After an error the core is as before; `Worn` comes only
/// where the history has `ENTRY_LIMIT` entries.
pub fn answer_alone<S: Subject + Drop>(
    alloc: Global,
    core: &mut Core<S>,
    by: u32,
    task: Task,
) -> Result<Entry, DeskEnd>
    requires fit { (S.meaning (S.kind core.old.subject)).fit task }
    requires stands { StandsForSome S.kind S.meaning core.old }
    ensures subject { core.new.subject ≡ core.old.subject }
    ensures entry { IfOk result (IsEntryOf by task) }
    ensures joins { IfOk result (EntryJoins S.kind S.meaning core.old core.new) }
    ensures kept { OnErr result (core.new ≡ core.old) }
    ensures worn { IfErr result (λ e. IsWornEnd e → core.old.tally.count ≡ last_number) }
{
    let mut attempt = Attempt::new(task);
    let mut work = Work::new();
    'trying: while attempt.refused() < REFUSAL_LIMIT {
        let Ok(trial) = trial_now(alloc, core, &attempt, &mut work) else {
            return Err(DeskEnd::NoMemory);
        };
        match core.commit(by, attempt, trial, &mut work) {
            CommitEnd::Done(entry) => return Ok(entry),
            CommitEnd::Stale(again, _why) => attempt = again,
            CommitEnd::NoMemory(_attempt) => return Err(DeskEnd::NoMemory),
            CommitEnd::Worn(_attempt) => return Err(DeskEnd::Worn),
        }
    }
    settled(alloc, core, by, attempt, &mut work)
}
