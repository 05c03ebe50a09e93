use history_model::Means;
use http_messages::Reply;
use ident_rules::NoMemory;
use outer_ends::Work;
use std::alloc::Global;
use task_forms::Task;
use view_reads::{Recorder, View};

/// What tasks mean to a value, by its kind alone. Code that asks only this of a type cannot run a request.
pub trait Answers: Means {
    ghost use Rattle.std.specs.Prelude.{◌≡◌, IfOk};

    /// What the meaning of tasks depends on, as plain data.
    ghost kind: { Self → Self.Kind };

    /// A value of the same kind. Its one error is want of memory.
    fn copy(&self, alloc: Global) -> Result<Self, NoMemory>
    where
        Self: Sized,
        ensures { IfOk result (λ s. kind s ≡ kind self.now) };
}

/// Runs tasks.
pub trait Subject: Answers {
    ghost use Rattle.std.specs.Prelude.{◌≡◌, IfOk, []};
    ghost use Rattle.history_model.specs.Trials.{IsTried, StaysInReach};

    /// Runs a task over a view: the reply is the task's answer in every valid world that agrees with the view on what was
    /// read, what was written leads from each such world to its effect, and each read lies in the task's reach.
    ///
    /// The recorder holds no reads and no writes before. The one error is want of memory, after which the recorder is only to be dropped.
    fn run_on<V: View>(
        &self,
        alloc: Global,
        task: &Task,
        recorder: &mut Recorder<V>,
        work: &mut Work,
    ) -> Result<Reply, NoMemory>
        requires fit { (Self.meaning (Self.kind self.now)).fit task.now }
        requires unread { recorder.old.reads ≡ record { keys = []; parts = [] } }
        requires unwritten { recorder.old.writes ≡ [] }
        ensures tried { IfOk result (λ r. IsTried (Self.meaning (Self.kind self.now)) (V.cells recorder.old.store) task.now recorder.new.reads recorder.new.writes r) }
        ensures reach { IfOk result (λ r. StaysInReach (Self.meaning (Self.kind self.now)) (V.cells recorder.old.store) task.now recorder.new.reads) };
}
