ghost use Rattle.std.specs.Prelude.{◌≡◌, ◌+◌, ◌<◌, ◌≤◌, length, vec_capacity, OnOk, OnErr};
ghost use Rattle.http_messages.specs.declared.limits.TheConstants.{BODY_LIMIT};
ghost use Rattle.http_bodies.specs.Parts.{Moves, TakesPart, PartCause, WasFull};

use http_framing::{Buffer, Fill};
use ident_rules::NoMemory;
use outer_ends::Source;

/// What was found where some bytes should stand.
#[derive(Clone, Copy, Debug, PartialEq, Eq)]
pub enum PartEnd {
    /// As many bytes.
    Whole,
    /// The input ended before.
    Cut,
    /// The source failed before.
    Fault,
    /// There was no memory for them.
    NoMemory,
}

// Moves bytes of the buffer to the end of a body that is to have so many.
fn move_some(buffer: &mut Buffer, body: &mut Vec<u8>, size: usize) -> Result<(), NoMemory>
    requires { length body.old.items ≤ size }
    ensures moves { OnOk result (Moves size buffer.old buffer.new body.old.items body.new.items) }
    ensures kept { OnErr result ((buffer.new ≡ buffer.old) × (body.new.items ≡ body.old.items)) }
    ensures room { vec_capacity body.old ≤ vec_capacity body.new }
    ensures full { OnErr result (vec_capacity body.old < size) }
{
    let count = (size - body.len()).min(buffer.as_slice().len());
    body.extend_from_slice(&buffer.as_slice()[..count])?;
    buffer.advance(count);
    Ok(())
}

/// Moves the next so many bytes of the buffer and the source to the end of a body.
pub fn take_part<S: Source>(
    source: &mut S,
    buffer: &mut Buffer,
    body: &mut Vec<u8>,
    size: usize,
) -> PartEnd
    requires { length body.old.items + size ≤ BODY_LIMIT }
    ensures takes { TakesPart size body.old.items body.new.items buffer.old buffer.new (S.told source.old) (S.told source.new) result }
    ensures cause { PartCause (S.told source.old) (S.told source.new) result }
    // Memory is missing only where the body had no room for them.
    ensures full { WasFull (vec_capacity body.old) (length body.old.items + size) result }
{
    let whole = body.len() + size;
    if move_some(buffer, body, whole).is_err() {
        return PartEnd::NoMemory;
    }
    'reading: while body.len() < whole {
        match buffer.fill(source) {
            Fill::More => (),
            Fill::End => return PartEnd::Cut,
            Fill::Failed => return PartEnd::Fault,
        }
        if move_some(buffer, body, whole).is_err() {
            return PartEnd::NoMemory;
        }
    }
    PartEnd::Whole
}
