ghost use Rattle.std.specs.Prelude.{◌≡◌, IfOk};

use compound_document::fetch_reply;
use history_model::Means;
use http_messages::Reply;
use ident_rules::NoMemory;
use operation_run::run_list;
use outer_ends::Work;
use resource_schema::Schema;
use std::alloc::Global;
use std::marker::Model;
use task_forms::Task;
use trial_subject::{Answers, Subject};
use view_reads::{Recorder, View};

/// Runs the tasks of a schema on a recorder over any view of its store. Contracts see the schema, as the list of its types.
#[derive(Drop)]
pub struct JsonSubject {
    schema: Schema,
}

impl Model for JsonSubject {
    ghost use Rattle.std.specs.Prelude.{List as Listed};
    ghost use Rattle.resource_schema.specs.declared.kinds.Kind.{Kind};

    ghost Value = { Listed Kind };

    ghost view = { λ s. s.schema };

    ghost inverse = { λ schema. record { schema = schema } };
}

impl JsonSubject {
    /// Runs the tasks of this schema.
    pub fn new(schema: Schema) -> JsonSubject
        ensures { result ≡ schema }
    {
        JsonSubject { schema }
    }
}

/// Tasks mean to it what they mean to the store under the schema.
impl Means for JsonSubject {
    ghost use Rattle.store_model.specs.StoreMeaning.{meaning_of};
    ghost use Rattle.task_run.specs.Lawful.{meaning_is_lawful};

    type Kind = Schema;

    ghost meaning = { meaning_of };

    ghost lawful = { meaning_is_lawful };
}

impl Answers for JsonSubject {
    ghost kind = { λ s. s };

    fn copy(&self, alloc: Global) -> Result<JsonSubject, NoMemory> {
        Ok(JsonSubject {
            schema: self.schema.copy(alloc)?,
        })
    }
}

/// A fetch is answered by its document (JSON:API 1.1, "Fetching Data"), and operations are done in their order, all or none
/// (Atomic Operations extension, "Processing").
impl Subject for JsonSubject {
    fn run_on<V: View>(
        &self,
        alloc: Global,
        task: &Task,
        recorder: &mut Recorder<V>,
        work: &mut Work,
    ) -> Result<Reply, NoMemory> {
        match task {
            Task::Fetch(fetch) => fetch_reply(alloc, &self.schema, fetch, recorder, work),
            Task::Change { operations, form } => {
                run_list(
                    alloc,
                    &self.schema,
                    operations.as_slice(),
                    *form,
                    recorder,
                    work,
                )
            }
        }
    }
}
