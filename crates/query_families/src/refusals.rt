ghost use Rattle.error_objects.specs.Refusals.{at_parameter};
ghost use Rattle.ident_rules.specs.StepErrors.{IsStop};

use error_objects::{Blame, Code, Refusal};
use ident_rules::{NoMemory, StepError, Text};
use std::alloc::Global;

/// A refusal of the parameter of that name.
pub fn refuse(code: Code, name: Text) -> StepError<Refusal>
    ensures { IsStop result (at_parameter code name) }
{
    StepError::Because(Refusal {
        code,
        blame: Blame::Parameter(name),
    })
}

/// A refusal of the parameter of that name, which is copied.
pub fn refuse_at(alloc: Global, code: Code, name: &str) -> StepError<Refusal>
    ensures { IsStop result (at_parameter code name.now) }
{
    match Text::from_str(alloc, name) {
        Ok(name) => refuse(code, name),
        Err(NoMemory) => StepError::NoMemory,
    }
}
