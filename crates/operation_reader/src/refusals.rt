ghost use Rattle.error_objects.specs.Refusals.{at_pointer};
ghost use Rattle.document_parts.specs.Pointers.{member_pointer};
ghost use Rattle.request_model.specs.Documents.{bad_document};
ghost use Rattle.ident_rules.specs.StepErrors.{IsStop};
ghost use Rattle.operation_reader.specs.Parts.{operation_pointer, part_pointer};

use crate::places::{operation_pointer, part_pointer};
use document_parts::member_pointer;
use error_objects::{Blame, Code, Refusal};
use ident_rules::{NoMemory, StepError, Text};
use std::alloc::Global;

/// A refusal of what a pointer leads to.
fn refuse(code: Code, pointer: Text) -> StepError<Refusal>
    ensures { IsStop result (at_pointer code pointer) }
{
    StepError::Because(Refusal {
        code,
        blame: Blame::Pointer(pointer),
    })
}

/// A refusal of what the pointer leads to.
pub fn refuse_at(alloc: Global, code: Code, at: &str) -> StepError<Refusal>
    ensures { IsStop result (at_pointer code at.now) }
{
    match Text::from_str(alloc, at) {
        Ok(pointer) => refuse(code, pointer),
        Err(NoMemory) => StepError::NoMemory,
    }
}

/// A refusal of the member of that name.
pub fn refuse_in(alloc: Global, code: Code, at: &str, name: &str) -> StepError<Refusal>
    ensures { IsStop result (at_pointer code (member_pointer at.now name.now)) }
{
    match member_pointer(alloc, at, name) {
        Ok(pointer) => refuse(code, pointer),
        Err(NoMemory) => StepError::NoMemory,
    }
}

/// No document of the kind that is asked for, where the pointer leads to.
pub fn bad_document(alloc: Global, at: &str) -> StepError<Refusal>
    ensures { IsStop result (bad_document at.now) }
{
    refuse_at(alloc, Code::BadDocument, at)
}

/// No operation, at that place of the list.
pub fn bad_operation(alloc: Global, place: u32) -> StepError<Refusal>
    ensures { IsStop result (bad_document (operation_pointer place)) }
{
    match operation_pointer(alloc, place) {
        Ok(pointer) => refuse(Code::BadDocument, pointer),
        Err(NoMemory) => StepError::NoMemory,
    }
}

/// A refusal of the member of that name of the operation at that place of the list.
pub fn refuse_part(alloc: Global, code: Code, place: u32, name: &str) -> StepError<Refusal>
    ensures { IsStop result (at_pointer code (part_pointer place name.now)) }
{
    match part_pointer(alloc, place, name) {
        Ok(pointer) => refuse(code, pointer),
        Err(NoMemory) => StepError::NoMemory,
    }
}

/// A refusal of a member of a part of the operation at that place of the list.
pub fn refuse_in_part(
    alloc: Global,
    code: Code,
    place: u32,
    part: &str,
    name: &str,
) -> StepError<Refusal>
    ensures { IsStop result (at_pointer code (member_pointer (part_pointer place part.now) name.now)) }
{
    match part_pointer(alloc, place, part) {
        Ok(pointer) => refuse_in(alloc, code, pointer.as_str(), name),
        Err(NoMemory) => StepError::NoMemory,
    }
}
