ghost use Rattle.std.specs.Prelude.{◌≡◌, IfOk};
ghost use Rattle.operation_reader.specs.Parts.{operation_pointer, part_pointer};

use document_parts::{item_member_pointer, item_pointer};
use ident_rules::{NoMemory, Text};
use std::alloc::Global;

/// The pointer of the array of operations (RFC 6901).
pub const LIST_POINTER: &str = "/atomic:operations";

/// The pointer of the operation at that place of the list.
#[tactic(auto, unfolding(crate::specs::Parts::operation_pointer))]
pub fn operation_pointer(alloc: Global, place: u32) -> Result<Text, NoMemory>
    ensures { IfOk result (λ t. t ≡ operation_pointer place) }
{
    item_pointer(alloc, LIST_POINTER, place)
}

/// The pointer of the member of that name of the operation at that place of the list.
#[tactic(auto, unfolding(crate::specs::Parts::operation_pointer))]
pub fn part_pointer(alloc: Global, place: u32, name: &str) -> Result<Text, NoMemory>
    ensures { IfOk result (λ t. t ≡ part_pointer place name.now) }
{
    item_member_pointer(alloc, LIST_POINTER, place, name)
}
