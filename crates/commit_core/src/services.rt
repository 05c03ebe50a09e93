ghost use Rattle.std.specs.Prelude.{◌≡◌, ◌+◌, ◌*◌, ◌<◌, ◌≤◌, ◌^◌, ℕ, true, [], Some, length, IfOk};
ghost use mathlib.Core.List.{IsPrefix};
ghost use Rattle.ident_rules.specs.Owned.{is_among};
ghost use Rattle.history_lock.specs.Making.{AreMade};
ghost use Rattle.history_lock.specs.Views.{both_views};
ghost use Rattle.commit_core.specs.Ends.{ComesBack, IfDone, SettlesBack};
ghost use Rattle.commit_core.specs.Serving.{Grows, IsPassOf, IsTrialSeen, SaysSeen, SettleWornAt, SettledBy, Snaps, StandsKept, WornAt, added_by, settled_by};

use crate::{Attempt, CommitEnd, Core, SettleEnd, Snapshot, Trial};
use history_lock::{HistoryLock, Keeps, Pass};
use history_model::LOG_WINDOW;
use ident_rules::NoMemory;
use ordered_pages::Pages;
use outer_ends::Work;
use std::alloc::Global;
use std::marker::Model;
use std::sync::Wait;
use task_forms::Entry;
use trial_subject::{Answers, Subject};

impl<S: Answers + Drop> Keeps for Core<S> {
    ghost use Rattle.commit_core.specs.Serving.{StandsKept};

    type Entry = Entry;

    type Kind = S::Kind;

    ghost stands = { StandsKept S.kind S.meaning };

    ghost by = { λ e. e.by };

    ghost kind = { λ c. S.kind c.subject };
}

/// The store that connections share: a core behind a history lock, and its subject beside the lock, for trials. Contracts see the lock's
/// name and the subject. Each call holds the lock at most once, and nobody holds it between two of them.
#[derive(Drop)]
pub struct Service<S: Answers + Drop> {
    lock: HistoryLock<Core<S>>,
    subject: S,
}

impl<S: Answers + Drop> Model for Service<S> {
    ghost use Rattle.commit_core.specs.Serving.{ServiceState};

    ghost Value = { ServiceState S };

    ghost view = { λ s. record { lock = s.lock; subject = s.subject } };
}

impl<S: Answers + Drop> Service<S> {
    /// A store whose history is empty and begins after the number `first`, and its 1 to 64 passes: the i-th, from 0, has the number i alone.
    /// Its one error is want of memory.
    pub fn new(
        alloc: Global,
        subject: S,
        first: u64,
        passes: u32,
    ) -> Result<(Service<S>, Vec<Pass<Core<S>, Entry, S::Kind>>), NoMemory>
        requires passes { (1 ≤ passes) × (passes ≤ 64) }
        requires first { first ≤ 2 ^ 62 }
        ensures kind { IfOk result (λ r. S.kind r.0.subject ≡ S.kind subject) }
        ensures made { IfOk result (λ r. AreMade first passes (S.kind subject) r.0.lock r.1.items) }
    {
        let outside = subject.copy(alloc)?;
        let core = Core::new(alloc, subject, Pages::new(alloc), first, LOG_WINDOW)?;
        let (lock, made) = HistoryLock::new(alloc, core, first, passes)?;
        Ok((
            Service {
                lock,
                subject: outside,
            },
            made,
        ))
    }

    /// What tasks mean here, to be tried without the lock.
    pub fn subject(&self) -> &S
        ensures { result.now ≡ self.now.subject }
    {
        &self.subject
    }

    /// The cells of the last world that the pass has then seen. It may wait. Its one error is want of memory.
    pub fn begin<R: Wait>(
        &self,
        rt: &R,
        pass: Pass<Core<S>, Entry, S::Kind>,
    ) -> (Pass<Core<S>, Entry, S::Kind>, Result<Snapshot, NoMemory>)
        requires own { IsPassOf S.kind self.now pass }
        ensures own { IsPassOf S.kind self.now result.0 }
        ensures grows { Grows (S.meaning (S.kind self.now.subject)) pass result.0 [] }
        ensures snapshot { IfOk result.1 (Snaps (S.meaning (S.kind self.now.subject)) result.0.view) }
    {
        let mut held = self.lock.enter(rt, pass);
        let snapshot = held.value().begin();
        (self.lock.leave(held), snapshot)
    }

    /// Commits a trial of a world that the pass has seen, with the pass's least number, as `Core::commit` does. It may wait. At most
    /// two steps of work a written cell.
    pub fn commit<R: Wait>(
        &self,
        rt: &R,
        pass: Pass<Core<S>, Entry, S::Kind>,
        attempt: Attempt,
        trial: Trial,
        work: &mut Work,
    ) -> (Pass<Core<S>, Entry, S::Kind>, CommitEnd)
        requires own { IsPassOf S.kind self.now pass }
        requires refused { attempt.refused < 3 }
        requires last { attempt.last ≤ trial.at }
        requires fit { (S.meaning (S.kind self.now.subject)).fit attempt.task }
        requires trial { IsTrialSeen (S.meaning (S.kind self.now.subject)) pass.view attempt.task trial }
        ensures own { IsPassOf S.kind self.now result.0 }
        ensures grows { Grows (S.meaning (S.kind self.now.subject)) pass result.0 (added_by result.1) }
        ensures says { SaysSeen (S.meaning (S.kind self.now.subject)) result.0.view trial result.1 }
        ensures done { IfDone result.1 (λ e. e ≡ record { by = pass.number; task = attempt.task; reply = trial.reply }) }
        ensures back { ComesBack attempt result.1 }
        ensures worn { WornAt result.0.view result.1 }
        ensures work { work.new.done ≤ work.old.done + 2 * length trial.writes }
    {
        let mut held = self.lock.enter(rt, pass);
        let by = held.number();
        match held.value().commit(by, attempt, trial, work) {
            CommitEnd::Done(entry) => {
                let pass = self.lock.leave_with(held, &entry);
                (pass, CommitEnd::Done(entry))
            }
            CommitEnd::Stale(attempt, why) => {
                (self.lock.leave(held), CommitEnd::Stale(attempt, why))
            }
            CommitEnd::NoMemory(attempt) => (self.lock.leave(held), CommitEnd::NoMemory(attempt)),
            CommitEnd::Worn(attempt) => (self.lock.leave(held), CommitEnd::Worn(attempt)),
        }
    }
}

impl<S: Answers + Drop> Service<S> {
    /// One pass of two, with the numbers of both. It has seen what the one of them that had seen more has, which begins with what the
    /// other had; its own entries are as many as those of both.
    pub fn join(
        &self,
        one: Pass<Core<S>, Entry, S::Kind>,
        other: Pass<Core<S>, Entry, S::Kind>,
    ) -> Pass<Core<S>, Entry, S::Kind>
        requires one { IsPassOf S.kind self.now one }
        requires other { IsPassOf S.kind self.now other }
        ensures own { IsPassOf S.kind self.now result }
        ensures view { result.view ≡ both_views (λ e. e.by) one.view other.view }
        ensures seen { IsPrefix one.view.seen result.view.seen × IsPrefix other.view.seen result.view.seen }
        ensures mine { length result.view.mine ≡ length one.view.mine + length other.view.mine }
    {
        self.lock.join(one, other)
    }

    /// The core, with the pass of all numbers, and how many entries its history has: the history is what the pass has seen, and all of it
    /// is its own.
    pub fn close(self, pass: Pass<Core<S>, Entry, S::Kind>) -> (Core<S>, u64)
        requires own { pass.lock ≡ self.lock.name }
        requires all { (n : ℕ) → n < self.lock.start.passes → is_among n pass.view.numbers ≡ true }
        ensures stands { StandsKept S.kind S.meaning result.0 pass.view.first pass.view.seen }
        ensures kind { pass.view.kind ≡ Some (S.kind result.0.subject) }
        ensures mine { pass.view.mine ≡ pass.view.seen }
        ensures count { result.1 ≡ length pass.view.seen }
    {
        let Service {
            lock,
            subject: _subject,
        } = self;
        lock.close(pass)
    }
}

impl<S: Subject + Drop> Service<S> {
    /// Settles a task that was refused three times, with the pass's least number, as `Core::settle` does. It may wait.
    pub fn settle<R: Wait>(
        &self,
        rt: &R,
        alloc: Global,
        pass: Pass<Core<S>, Entry, S::Kind>,
        attempt: Attempt,
        work: &mut Work,
    ) -> (Pass<Core<S>, Entry, S::Kind>, SettleEnd)
        requires own { IsPassOf S.kind self.now pass }
        requires refused { attempt.refused ≡ 3 }
        requires fit { (S.meaning (S.kind self.now.subject)).fit attempt.task }
        ensures own { IsPassOf S.kind self.now result.0 }
        ensures grows { Grows (S.meaning (S.kind self.now.subject)) pass result.0 (settled_by result.1) }
        ensures done { SettledBy pass.number attempt.task result.1 }
        ensures back { SettlesBack attempt result.1 }
        ensures worn { SettleWornAt result.0.view result.1 }
    {
        let mut held = self.lock.enter(rt, pass);
        let by = held.number();
        match held.value().settle(alloc, by, attempt, work) {
            SettleEnd::Done(entry) => {
                let pass = self.lock.leave_with(held, &entry);
                (pass, SettleEnd::Done(entry))
            }
            SettleEnd::NoMemory(attempt) => (self.lock.leave(held), SettleEnd::NoMemory(attempt)),
            SettleEnd::Worn(attempt) => (self.lock.leave(held), SettleEnd::Worn(attempt)),
        }
    }
}
