ghost use Rattle.error_objects.specs.Refusals.{at_pointer};
ghost use Rattle.document_parts.specs.Pointers.{member_pointer};
ghost use Rattle.request_model.specs.Documents.{bad_document};
ghost use Rattle.ident_rules.specs.StepErrors.{IsStop};

use document_parts::member_pointer;
use error_objects::{Blame, Code, Refusal};
use ident_rules::{NoMemory, StepError, Text};
use std::alloc::Global;

/// A refusal of what a pointer leads to.
pub fn refuse(code: Code, pointer: Text) -> StepError<Refusal>
    ensures { IsStop result (at_pointer code pointer) }
{
    StepError::Because(Refusal {
        code,
        blame: Blame::Pointer(pointer),
    })
}

/// A refusal of what the pointer leads to.
pub fn refuse_at(alloc: Global, code: Code, at: &str) -> StepError<Refusal>
    ensures { IsStop result (at_pointer code at.now) }
{
    match Text::from_str(alloc, at) {
        Ok(pointer) => refuse(code, pointer),
        Err(NoMemory) => StepError::NoMemory,
    }
}

/// A refusal of the member of that name.
pub fn refuse_in(alloc: Global, code: Code, at: &str, name: &str) -> StepError<Refusal>
    ensures { IsStop result (at_pointer code (member_pointer at.now name.now)) }
{
    match member_pointer(alloc, at, name) {
        Ok(pointer) => refuse(code, pointer),
        Err(NoMemory) => StepError::NoMemory,
    }
}

/// A refusal of the member of that name in the member `group`.
pub fn refuse_below(
    alloc: Global,
    code: Code,
    at: &str,
    group: &str,
    name: &str,
) -> StepError<Refusal>
    ensures { IsStop result (at_pointer code (member_pointer (member_pointer at.now group.now) name.now)) }
{
    match member_pointer(alloc, at, group) {
        Ok(pointer) => refuse_in(alloc, code, pointer.as_str(), name),
        Err(NoMemory) => StepError::NoMemory,
    }
}

/// No document of the kind that is asked for, where the pointer leads to.
pub fn bad_document(alloc: Global, at: &str) -> StepError<Refusal>
    ensures { IsStop result (bad_document at.now) }
{
    refuse_at(alloc, Code::BadDocument, at)
}
