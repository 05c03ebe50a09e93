ghost use Rattle.request_model.specs.Plans.{none_or_err};
ghost use Rattle.request_model.specs.Queries.{no_parameter, pairs_of};
ghost use Rattle.ident_rules.specs.StepErrors.{Gives};

use crate::replies::refuse_parameter;
use error_objects::Refusal;
use form_urlencoded::parse;
use ident_rules::{StepError, Text};
use std::alloc::Global;

/// The refusal of the first parameter of a query, where there is one: the methods but GET and HEAD know none.
pub fn check_query(alloc: Global, query: &str) -> Result<(), StepError<Refusal>>
    ensures { Gives result (none_or_err (no_parameter (pairs_of query.now))) }
{
    match parse(alloc, query.as_bytes()).into_owned().next() {
        Some(Ok((name, _))) => Err(refuse_parameter(Text::from_string(name))),
        Some(Err(_)) => Err(StepError::NoMemory),
        None => Ok(()),
    }
}
