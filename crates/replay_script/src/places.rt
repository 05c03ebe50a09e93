ghost use Rattle.document_parts.specs.Pointers.{item_pointer};
ghost use Rattle.ident_rules.specs.StepErrors.{IsStop};

use document_parts::item_pointer;
use ident_rules::{NoMemory, StepError, Text};
use std::alloc::Global;

/// A fault at a place.
pub fn fault(alloc: Global, place: &str) -> StepError<Text>
    ensures { IsStop result place.now }
{
    match Text::from_str(alloc, place) {
        Ok(place) => StepError::Because(place),
        Err(NoMemory) => StepError::NoMemory,
    }
}

/// A fault at an item of an array.
pub fn fault_at(alloc: Global, array: &str, place: u32) -> StepError<Text>
    ensures { IsStop result (item_pointer array.now place) }
{
    match item_pointer(alloc, array, place) {
        Ok(place) => StepError::Because(place),
        Err(NoMemory) => StepError::NoMemory,
    }
}
