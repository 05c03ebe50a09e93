use crate::Plan;
use http_messages::Message;
use ident_rules::NoMemory;
use std::alloc::Global;

/// Decides what a message asks for.
pub trait Planner {
    ghost use Rattle.std.specs.Prelude.{◌≡◌, IfOk};
    ghost use Rattle.http_messages.specs.declared.messages.Message.{Message};
    ghost use Rattle.task_forms.specs.declared.tasks.Plan.{Plan};
    ghost use Rattle.task_forms.specs.declared.tasks.Plan.TheVariants.{Run};
    ghost use Rattle.task_forms.specs.declared.tasks.Task.{Task};

    /// What each message asks for.
    ghost planned: { Self → Message → Plan };
    /// The tasks that it may plan.
    ghost fit: { Self → Task → Type 0 };

    /// What the message asks for. Its one error is want of memory.
    fn plan(&self, alloc: Global, message: &Message) -> Result<Plan, NoMemory>
        ensures planned { IfOk result (λ p. p ≡ planned self.now message.now) }
        ensures fit { IfOk result (λ p. (t : Task) → p ≡ Run t → fit self.now t) };
}
