ghost use Rattle.std.specs.Prelude.{◌≡◌, ◌+◌, ◌<◌, ◌≤◌, ◌++◌, ℕ, List, length};
ghost use Rattle.httparse.specs.Grammar.{ChunkLine, print_chunk_line};
ghost use Rattle.http_messages.specs.declared.framings.Framing.TheVariants.{Chunked};
ghost use Rattle.http_messages.specs.declared.limits.TheConstants.{BODY_LIMIT, CHUNK_LINE_LIMIT};
ghost use Rattle.http_bodies.specs.Pieces.{IsLineOf, TakesPiece, PieceCause};
ghost use Rattle.http_bodies.specs.Body.{TakesBody, BodyCause};

use crate::bodies::BodyEnd;
use crate::edges::{EdgeEnd, take_edge};
use crate::lines::{LineEnd, take_line};
use crate::parts::{PartEnd, take_part};
use crate::trailers::{TrailersEnd, take_trailers};
use http_framing::Buffer;
use http_messages::BODY_LIMIT;
use ident_rules::Bytes;
use outer_ends::Source;
use std::alloc::Global;

/// What was found where a chunk, or the end of a chunked body, should stand. A place counts from there.
#[derive(Clone, Copy, Debug, PartialEq, Eq)]
pub enum PieceEnd {
    /// A chunk of so many bytes, its line and its end included.
    Chunk(usize),
    /// The last chunk and the trailer section.
    Last,
    /// The input ended inside.
    Cut,
    /// A chunk line, chunk end or trailer section is none.
    Bad(usize),
    /// The sizes sum to more than 1,048,576.
    TooLarge,
    /// The source failed.
    Fault,
    /// There was no memory for the data.
    NoMemory,
}

// Takes the data and the end of a chunk whose line, of so many bytes, says that size.
fn take_data<S: Source>(
    source: &mut S,
    buffer: &mut Buffer,
    body: &mut Vec<u8>,
    len: usize,
    size: usize,
) -> PieceEnd
    requires some { 0 < size }
    requires within { length body.old.items + size ≤ BODY_LIMIT }
    requires line { len ≤ CHUNK_LINE_LIMIT }
    ensures takes { (line : ChunkLine) → IsLineOf len size line → TakesPiece body.old.items body.new.items (print_chunk_line line ++ buffer.old) buffer.new (S.told source.old) (S.told source.new) result }
    ensures cause { PieceCause (S.told source.old) (S.told source.new) result }
{
    match take_part(source, buffer, body, size) {
        PartEnd::Cut => return PieceEnd::Cut,
        PartEnd::Fault => return PieceEnd::Fault,
        PartEnd::NoMemory => return PieceEnd::NoMemory,
        PartEnd::Whole => (),
    }
    match take_edge(source, buffer) {
        EdgeEnd::Cut => PieceEnd::Cut,
        EdgeEnd::Fault => PieceEnd::Fault,
        EdgeEnd::Bad => PieceEnd::Bad(len + size),
        EdgeEnd::Edge => {
            buffer.advance(2);
            PieceEnd::Chunk(len + size + 2)
        }
    }
}

// Takes the trailer section behind a last chunk's line of so many bytes.
fn take_last<S: Source>(source: &mut S, buffer: &mut Buffer, len: usize) -> PieceEnd
    ensures takes { (line : ChunkLine) (body : List ℕ) → IsLineOf len 0 line → TakesPiece body body (print_chunk_line line ++ buffer.old) buffer.new (S.told source.old) (S.told source.new) result }
    ensures cause { PieceCause (S.told source.old) (S.told source.new) result }
{
    match take_trailers(source, buffer) {
        TrailersEnd::Trailers(count) => {
            buffer.advance(count);
            PieceEnd::Last
        }
        TrailersEnd::Bad => PieceEnd::Bad(len),
        TrailersEnd::Cut => PieceEnd::Cut,
        TrailersEnd::Fault => PieceEnd::Fault,
    }
}

// Takes what stands behind a chunk line of so many bytes that says that size.
fn take_behind<S: Source>(
    source: &mut S,
    buffer: &mut Buffer,
    body: &mut Vec<u8>,
    len: usize,
    size: u64,
) -> PieceEnd
    requires within { length body.old.items ≤ BODY_LIMIT }
    requires line { len ≤ CHUNK_LINE_LIMIT }
    ensures takes { (line : ChunkLine) → IsLineOf len size line → TakesPiece body.old.items body.new.items (print_chunk_line line ++ buffer.old) buffer.new (S.told source.old) (S.told source.new) result }
    ensures cause { PieceCause (S.told source.old) (S.told source.new) result }
{
    if size == 0 {
        return take_last(source, buffer, len);
    }
    let free = BODY_LIMIT - body.len();
    if (free as u64) < size {
        return PieceEnd::TooLarge;
    }
    take_data(source, buffer, body, len, size as usize)
}

// Takes a chunk, or the last chunk and the trailer section.
fn take_piece<S: Source>(source: &mut S, buffer: &mut Buffer, body: &mut Vec<u8>) -> PieceEnd
    requires { length body.old.items ≤ BODY_LIMIT }
    ensures takes { TakesPiece body.old.items body.new.items buffer.old buffer.new (S.told source.old) (S.told source.new) result }
    ensures cause { PieceCause (S.told source.old) (S.told source.new) result }
{
    match take_line(source, buffer) {
        LineEnd::Line(len, size) => {
            buffer.advance(len);
            take_behind(source, buffer, body, len, size)
        }
        LineEnd::Bad => PieceEnd::Bad(0),
        LineEnd::Cut => PieceEnd::Cut,
        LineEnd::Fault => PieceEnd::Fault,
    }
}

/// Takes a chunked body.
pub fn take_chunked<S: Source>(alloc: Global, source: &mut S, buffer: &mut Buffer) -> BodyEnd
    ensures takes { TakesBody Chunked buffer.old buffer.new (S.told source.old) (S.told source.new) result }
    ensures cause { BodyCause (S.told source.old) (S.told source.new) result }
{
    let mut body = Vec::new(alloc);
    let mut place = 0;
    'chunks: loop {
        match take_piece(source, buffer, &mut body) {
            PieceEnd::Chunk(len) => place += len,
            PieceEnd::Last => return BodyEnd::Body(Bytes::from_vec(body)),
            PieceEnd::Cut => return BodyEnd::CutShort,
            PieceEnd::Bad(on) => return BodyEnd::BadChunk(place + on),
            PieceEnd::TooLarge => return BodyEnd::TooLarge,
            PieceEnd::Fault => return BodyEnd::ReadFault,
            PieceEnd::NoMemory => return BodyEnd::NoMemory,
        }
    }
}
