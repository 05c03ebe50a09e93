ghost use Rattle.std.specs.Prelude.{◌≡◌, ◌+◌, ◌*◌, ◌<◌, ◌≤◌, ◌^◌, IfOk, OnErr, OnOk, length, map};
ghost use Rattle.world_cells.specs.Reads.{AreRisingKeys};
ghost use Rattle.history_model.specs.Commits.{CommitCause};
ghost use Rattle.history_model.specs.Laws.{TakesEntry};
ghost use Rattle.ordered_pages.specs.Tree.{map_of};
ghost use Rattle.commit_core.specs.Ends.{ComesBack, IfDone, UnlessDone, end_of};
ghost use Rattle.commit_core.specs.Standing.{BeginsAt, Leaves, Says};

use crate::{Attempt, CommitEnd, ENTRY_LIMIT, Setback, Tally, Trial};
use history_model::{Check, commit_extends_history, log_tells_history};
use ident_rules::NoMemory;
use ordered_pages::Pages;
use outer_ends::Work;
use std::alloc::Global;
use task_forms::Entry;
use trial_subject::Answers;
use world_cells::WriteSet;

/// A store that keeps one history.
#[derive(Drop)]
pub struct Core<S> {
    /// What tasks mean here, and what runs them.
    pub subject: S,
    /// The cells of the history's last world.
    pub pages: Pages,
    /// The history's count and the log of its last writing entries.
    pub tally: Tally,
}

/// The cells at one moment of a history.
#[derive(Drop)]
pub struct Snapshot {
    /// The cells.
    pub pages: Pages,
    /// The number of the last entry then.
    pub at: u64,
}

impl Snapshot {
    /// The number of the last entry that it has seen.
    pub fn at(&self) -> u64
        ensures { result ≡ self.now.at }
    {
        self.at
    }
}

impl<S: Answers + Drop> Core<S> {
    /// A core whose history is empty and begins after the number `first`, in the world whose cells these are; it remembers so many writing
    /// entries. Its one error is want of memory.
    pub fn new(
        alloc: Global,
        subject: S,
        pages: Pages,
        first: u64,
        window: usize,
    ) -> Result<Core<S>, NoMemory>
        requires first { first ≤ 2 ^ 62 }
        requires window { 0 < window }
        ensures subject { IfOk result (λ c. c.subject ≡ subject) }
        ensures window { IfOk result (λ c. c.tally.log.window ≡ window) }
        ensures begins { IfOk result (BeginsAt S.kind S.meaning (map_of pages) first) }
    {
        let tally = Tally::new(alloc, first, window)?;
        Ok(Core {
            subject,
            pages,
            tally,
        })
    }

    /// What tasks mean here.
    pub fn subject(&self) -> &S
        ensures { result.now ≡ self.now.subject }
    {
        &self.subject
    }

    /// The cells as they are now. Its one error is want of memory, of the pages' shared pointers.
    pub fn begin(&self) -> Result<Snapshot, NoMemory>
        ensures at { IfOk result (λ s. s.at ≡ self.now.tally.count) }
        ensures pages { IfOk result (λ s. s.pages ≡ self.now.pages) }
    {
        let pages = self.pages.snapshot()?;
        Ok(Snapshot {
            pages,
            at: self.tally.count(),
        })
    }

    // Writes, and counts one entry more.
    pub(crate) fn apply(&mut self, writes: &WriteSet, work: &mut Work) -> Result<(), NoMemory>
        requires room { self.old.tally.count < 2 ^ 62 }
        requires rising { AreRisingKeys (map (λ w. w.key) writes.now.cells) }
        ensures subject { self.new.subject ≡ self.old.subject }
        ensures count { OnOk result (self.new.tally.count ≡ self.old.tally.count + 1) }
        ensures window { self.new.tally.log.window ≡ self.old.tally.log.window }
        ensures takes { OnOk result (TakesEntry (map_of self.old.pages) (map_of self.new.pages) self.old.tally.count self.old.tally.log self.new.tally.log writes.now.cells) }
        ensures kept { OnErr result (self.new ≡ self.old) }
        ensures work { work.new.done ≤ work.old.done + length writes.now.cells }
    {
        let (ready, keys) = self.pages.prepare(writes, work)?;
        self.pages.install(ready);
        self.tally.add(keys);
        Ok(())
    }

    /// Commits a trial of the attempt's task on a snapshot of this core: unless a later entry wrote what it looked at, its writes are done and
    /// its entry joins. For every legal history for which the core stood and whose world at the snapshot's number the trial ran on, the
    /// core then stands for that history with the entry.
    ///
    /// `Worn` comes exactly where the history has `ENTRY_LIMIT` entries, and before all else; `Stale` exactly where the log tells a
    /// conflict or that the snapshot is too old. After any answer but `Done` the core is as before. At most two steps of work a written cell.
    pub fn commit(&mut self, by: u32, attempt: Attempt, trial: Trial, work: &mut Work) -> CommitEnd
        requires refused { attempt.refused < 3 }
        requires last { attempt.last ≤ trial.at }
        requires fit { (S.meaning (S.kind self.old.subject)).fit attempt.task }
        ensures subject { self.new.subject ≡ self.old.subject }
        ensures window { self.new.tally.log.window ≡ self.old.tally.log.window }
        ensures count { IfDone result (λ e. self.new.tally.count ≡ self.old.tally.count + 1) }
        ensures cause { CommitCause self.old.tally.count self.old.tally.log trial.reads trial.at (end_of result) }
        ensures leaves { Leaves S.kind S.meaning self.old self.new by attempt trial result }
        ensures says { Says S.kind S.meaning self.old trial result }
        ensures back { ComesBack attempt result }
        ensures kept { UnlessDone result (self.new ≡ self.old) }
        ensures work { work.new.done ≤ work.old.done + 2 * length trial.writes }
    {
        commit_extends_history::<S>();
        log_tells_history::<S>();
        if self.tally.count() == ENTRY_LIMIT {
            return CommitEnd::Worn(attempt);
        }
        let mut looks = Work::new();
        match self
            .tally
            .first_conflict(&trial.reads, trial.at, &mut looks)
        {
            Check::Conflict(n) => {
                return CommitEnd::Stale(attempt.refused_by(n), Setback::Conflict(n));
            }
            Check::Aged(n) => {
                return CommitEnd::Stale(attempt.refused_by(n), Setback::Aged(n));
            }
            Check::Clear => {}
        }
        let Trial { reply, writes, .. } = trial;
        let Ok(()) = self.apply(writes.set(), work) else {
            return CommitEnd::NoMemory(attempt);
        };
        let Attempt { task, .. } = attempt;
        CommitEnd::Done(Entry { by, task, reply })
    }
}
