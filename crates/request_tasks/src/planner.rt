ghost use Rattle.std.specs.Prelude.{◌≡◌, IfOk};
ghost use Rattle.task_forms.specs.Fit.{IsFit};
ghost use Rattle.task_forms.specs.declared.tasks.Task.{Task as StoreTask};
ghost use Rattle.task_forms.specs.declared.tasks.Plan.TheVariants.{Run};
ghost use Rattle.request_model.specs.Plans.{planned};

use crate::tasks::task_or_reply;
use http_messages::Message;
use ident_rules::{NoMemory, StepError};
use request_model::planned_task_is_fit;
use resource_schema::Schema;
use std::alloc::Global;
use std::marker::Model;
use task_forms::{Plan, Planner};

/// What a message asks for, in a schema.
fn planned(alloc: Global, schema: &Schema, message: &Message) -> Result<Plan, NoMemory>
    ensures planned { IfOk result (λ p. p ≡ planned schema.now message.now) }
    ensures fit { IfOk result (λ p. (t : StoreTask) → p ≡ Run t → IsFit schema.now t) }
{
    let _rules = schema.kinds();
    planned_task_is_fit();
    match task_or_reply(alloc, schema, message) {
        Ok(task) => Ok(Plan::Run(task)),
        Err(StepError::Because(reply)) => Ok(Plan::Fixed(reply)),
        Err(StepError::NoMemory) => Err(NoMemory),
    }
}

/// Plans the messages of a schema. Contracts see the schema, as the list of its types.
#[derive(Drop)]
pub struct RequestTasks {
    schema: Schema,
}

impl Model for RequestTasks {
    ghost use Rattle.std.specs.Prelude.{List as Listed};
    ghost use Rattle.resource_schema.specs.declared.kinds.Kind.{Kind};

    ghost Value = { Listed Kind };

    ghost view = { λ t. t.schema };

    ghost inverse = { λ schema. record { schema = schema } };
}

impl RequestTasks {
    /// Plans the messages of this schema. Its one error is want of memory.
    pub fn new(alloc: Global, schema: &Schema) -> Result<RequestTasks, NoMemory>
        ensures { IfOk result (λ t. t ≡ schema.now) }
    {
        Ok(RequestTasks {
            schema: schema.copy(alloc)?,
        })
    }
}

/// Judges the target, the path, the method, the content, what is accepted, the form and the body, in this order, and
/// answers the first refusal, or the task (RFC 9110, section 15.5; JSON:API 1.1, "Server Responsibilities").
impl Planner for RequestTasks {
    ghost use Rattle.task_forms.specs.Fit.{IsFit};
    ghost use Rattle.request_model.specs.Plans.{planned};

    ghost planned = { λ t m. planned t m };

    ghost fit = { λ t task. IsFit t task };

    fn plan(&self, alloc: Global, message: &Message) -> Result<Plan, NoMemory> {
        planned(alloc, &self.schema, message)
    }
}

/// Plans the messages of a schema that is lent, as `RequestTasks` does. It takes no memory of its own.
#[derive(Clone, Copy)]
pub struct LentTasks<'s> {
    /// The schema.
    pub schema: &'s Schema,
}

impl<'s> Planner for LentTasks<'s> {
    ghost use Rattle.task_forms.specs.Fit.{IsFit};
    ghost use Rattle.request_model.specs.Plans.{planned};

    ghost planned = { λ t m. planned t.schema.now m };

    ghost fit = { λ t task. IsFit t.schema.now task };

    fn plan(&self, alloc: Global, message: &Message) -> Result<Plan, NoMemory> {
        planned(alloc, self.schema, message)
    }
}
