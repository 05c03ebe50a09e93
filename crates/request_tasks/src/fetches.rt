ghost use Rattle.std.specs.Prelude.{◌≡◌};
ghost use Rattle.request_model.specs.Plans.{fetch_of, is_fetch};
ghost use Rattle.ident_rules.specs.StepErrors.{Gives};

use error_objects::{Read, Refusal};
use ident_rules::StepError;
use query_families::read_query;
use resource_schema::{Schema, Target};
use std::alloc::Global;
use task_forms::{Fetch, Task};

/// GET and HEAD (JSON:API 1.1, "Fetching Data").
pub fn is_fetch(method: &str) -> bool
    ensures { result ≡ is_fetch method.now }
{
    method == "GET" || method == "HEAD"
}

/// The task of GET and HEAD (JSON:API 1.1, "Query Parameters").
pub fn fetch_of(
    alloc: Global,
    schema: &Schema,
    target: &Target,
    query: &str,
) -> Result<Task, StepError<Refusal>>
    ensures { Gives result (fetch_of schema.now target.now query.now) }
{
    match read_query(alloc, schema, target, query) {
        Read::Good(query) => Ok(Task::Fetch(Fetch {
            target: *target,
            query,
        })),
        Read::Refused(refusal) => Err(StepError::Because(refusal)),
        Read::NoMemory => Err(StepError::NoMemory),
    }
}
