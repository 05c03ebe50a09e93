ghost use Rattle.std.specs.Prelude.{◌≡◌, ◌+◌};
ghost use Rattle.task_forms.specs.Desks.{last_number};
ghost use Rattle.commit_core.specs.Ends.{IfSettled, SettleCause, SettlesBack, UnlessSettled};
ghost use Rattle.commit_core.specs.Standing.{Settles};

use crate::{Attempt, Core, ENTRY_LIMIT, SettleEnd};
use history_model::settle_extends_history;
use outer_ends::Work;
use std::alloc::Global;
use task_forms::Entry;
use trial_subject::Subject;
use view_reads::Recorder;

impl<S: Subject + Drop> Core<S> {
    /// Runs the task of an attempt that was refused three times on the core as it is, and its entry joins. For every legal history for which
    /// the core stood it then stands for that history with the entry.
    ///
    /// `Worn` comes exactly where the history has `ENTRY_LIMIT` entries. After any answer but `Done` the core is as before.
    pub fn settle(&mut self, alloc: Global, by: u32, attempt: Attempt, work: &mut Work) -> SettleEnd
        requires refused { attempt.refused ≡ 3 }
        requires fit { (S.meaning (S.kind self.old.subject)).fit attempt.task }
        ensures subject { self.new.subject ≡ self.old.subject }
        ensures window { self.new.tally.log.window ≡ self.old.tally.log.window }
        ensures count { IfSettled result (λ e. self.new.tally.count ≡ self.old.tally.count + 1) }
        ensures cause { SettleCause self.old.tally.count result }
        ensures settles { Settles S.kind S.meaning self.old self.new by attempt.task result }
        ensures back { SettlesBack attempt result }
        ensures kept { UnlessSettled result (self.new ≡ self.old) }
    {
        settle_extends_history::<S>();
        if self.tally.count() == ENTRY_LIMIT {
            return SettleEnd::Worn(attempt);
        }
        let mut recorder = Recorder::new(alloc, &self.pages);
        let Ok(reply) = self
            .subject
            .run_on(alloc, &attempt.task, &mut recorder, work)
        else {
            return SettleEnd::NoMemory(attempt);
        };
        let (_reads, writes) = recorder.finish();
        let Ok(()) = self.apply(&writes, work) else {
            return SettleEnd::NoMemory(attempt);
        };
        let Attempt { task, .. } = attempt;
        SettleEnd::Done(Entry { by, task, reply })
    }
}
