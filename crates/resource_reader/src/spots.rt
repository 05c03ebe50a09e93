ghost use Rattle.std.specs.Prelude.{◌≡◌, IfOk};
ghost use Rattle.error_objects.specs.Refusals.{at_pointer};
ghost use Rattle.document_parts.specs.Pointers.{member_pointer};
ghost use Rattle.request_model.specs.Documents.{bad_document};
ghost use Rattle.ident_rules.specs.StepErrors.{IsStop};
ghost use Rattle.resource_reader.specs.Spots.{link_pointer, spot_pointer, pointer_at};

use crate::refusals::{refuse, refuse_in};
use document_parts::{item_pointer, member_pointer};
use error_objects::{Code, Refusal};
use ident_rules::{NoMemory, StepError, Text};
use std::alloc::Global;

/// Where a linkage stands. Its pointer is made only where something is refused.
#[derive(Clone, Copy, Debug)]
pub enum Spot<'a> {
    /// What a pointer leads to.
    At(&'a str),
    /// The data of a relationship: the pointer of its resource object, and its name.
    Link(&'a str, &'a str),
}

/// The pointer of the data of a relationship of a resource object.
fn link_pointer(alloc: Global, at: &str, name: &str) -> Result<Text, NoMemory>
    ensures { IfOk result (λ t. t ≡ link_pointer at.now name.now) }
{
    let group = member_pointer(alloc, at, "relationships")?;
    let own = member_pointer(alloc, group.as_str(), name)?;
    member_pointer(alloc, own.as_str(), "data")
}

/// The pointer of a spot.
fn spot_pointer(alloc: Global, spot: Spot<'_>) -> Result<Text, NoMemory>
    ensures { IfOk result (λ t. t ≡ spot_pointer spot.entry) }
{
    match spot {
        Spot::At(at) => Text::from_str(alloc, at),
        Spot::Link(at, name) => link_pointer(alloc, at, name),
    }
}

/// The pointer of the item of that index at a spot, or else of all that stands there.
fn pointer_at(alloc: Global, spot: Spot<'_>, index: Option<u32>) -> Result<Text, NoMemory>
    ensures { IfOk result (λ t. t ≡ pointer_at spot.entry index) }
{
    let whole = spot_pointer(alloc, spot)?;
    match index {
        None => Ok(whole),
        Some(place) => item_pointer(alloc, whole.as_str(), place),
    }
}

/// No document of the kind that is asked for, at a spot or an item of it.
pub fn bad_spot(alloc: Global, spot: Spot<'_>, index: Option<u32>) -> StepError<Refusal>
    ensures { IsStop result (bad_document (pointer_at spot.entry index)) }
{
    match pointer_at(alloc, spot, index) {
        Ok(pointer) => refuse(Code::BadDocument, pointer),
        Err(NoMemory) => StepError::NoMemory,
    }
}

/// A refusal of the member of that name, at a spot or an item of it.
pub fn refuse_in_spot(
    alloc: Global,
    code: Code,
    spot: Spot<'_>,
    index: Option<u32>,
    name: &str,
) -> StepError<Refusal>
    ensures { IsStop result (at_pointer code (member_pointer (pointer_at spot.entry index) name.now)) }
{
    match pointer_at(alloc, spot, index) {
        Ok(pointer) => refuse_in(alloc, code, pointer.as_str(), name),
        Err(NoMemory) => StepError::NoMemory,
    }
}
