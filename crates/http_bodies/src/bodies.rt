ghost use Rattle.std.specs.Prelude.{◌≡◌, ◌≤◌, ◌++◌, IfSome};
ghost use Rattle.http_messages.specs.declared.framings.Framing.TheVariants.{Length};
ghost use Rattle.http_messages.specs.declared.limits.TheConstants.{BODY_LIMIT};
ghost use Rattle.http_bodies.specs.Body.{FitsBodyLimit, TakesBody, BodyCause, BodyOfRest};

use crate::chunks::take_chunked;
use crate::parts::{PartEnd, take_part};
use http_framing::Buffer;
use http_messages::Framing;
use http_model::read_stays;
use ident_rules::Bytes;
use outer_ends::Source;
use std::alloc::Global;

/// What was found where a body should stand.
#[derive(Debug, Drop)]
pub enum BodyEnd {
    /// The body: its content, with no trace of how it was framed.
    Body(Bytes),
    /// The input ended inside the body.
    CutShort,
    /// A chunk line, chunk end or trailer section is none. Its place is counted from the body's first byte.
    BadChunk(usize),
    /// The sizes of the chunks sum to more than 1,048,576.
    TooLarge,
    /// The source failed, and its count says so.
    ReadFault,
    /// There was no memory for the body.
    NoMemory,
}

// Takes a body of so many bytes.
fn take_sized<S: Source>(alloc: Global, source: &mut S, buffer: &mut Buffer, size: usize) -> BodyEnd
    requires { size ≤ BODY_LIMIT }
    ensures takes { TakesBody (Length size) buffer.old buffer.new (S.told source.old) (S.told source.new) result }
    ensures cause { BodyCause (S.told source.old) (S.told source.new) result }
{
    let Ok(mut body) = Vec::with_capacity(alloc, size) else {
        return BodyEnd::NoMemory;
    };
    match take_part(source, buffer, &mut body, size) {
        PartEnd::Whole => BodyEnd::Body(Bytes::from_vec(body)),
        PartEnd::Cut => BodyEnd::CutShort,
        PartEnd::Fault => BodyEnd::ReadFault,
        PartEnd::NoMemory => BodyEnd::NoMemory,
    }
}

// Takes a body of any framing.
fn take_framed<S: Source>(
    alloc: Global,
    source: &mut S,
    buffer: &mut Buffer,
    framing: Framing,
) -> BodyEnd
    requires { FitsBodyLimit framing }
    ensures takes { TakesBody framing buffer.old buffer.new (S.told source.old) (S.told source.new) result }
    ensures cause { BodyCause (S.told source.old) (S.told source.new) result }
{
    match framing {
        Framing::Empty => BodyEnd::Body(Bytes::from_vec(Vec::new(alloc))),
        Framing::Length(size) => take_sized(alloc, source, buffer, size as usize),
        Framing::Chunked => take_chunked(alloc, source, buffer),
    }
}

/// Takes the body behind a head of that framing, a length being at most 1,048,576, from the buffer and the source
/// (RFC 9112, sections 6 and 7.1). Trailers are read and left aside. What follows a whole body stays in the buffer.
pub fn take_body<S: Source>(
    alloc: Global,
    source: &mut S,
    buffer: &mut Buffer,
    framing: Framing,
) -> BodyEnd
    requires { FitsBodyLimit framing }
    // Of any source: what moved, and the answer by the bytes that were seen.
    ensures takes { TakesBody framing buffer.old buffer.new (S.told source.old) (S.told source.new) result }
    // Of a source that tells what is left: the answer by all of it, however it was cut.
    ensures rest { IfSome (S.told source.old).left (λ left. BodyOfRest framing (buffer.old ++ left) buffer.new (S.told source.new).left result) }
    // A fault is answered exactly where the count rose.
    ensures cause { BodyCause (S.told source.old) (S.told source.new) result }
{
    read_stays();
    take_framed(alloc, source, buffer, framing)
}
