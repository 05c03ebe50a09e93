ghost use Rattle.std.specs.Prelude.{◌≡◌, ℕ, List, take};
ghost use Rattle.http_framing.specs.Fills.{Adds};
ghost use Rattle.http_bodies.specs.Lines.{LineIs, LineOn, LineCause};
ghost use Rattle.http_messages.specs.declared.limits.TheConstants.{CHUNK_LINE_LIMIT};

use http_framing::{Buffer, Fill};
use http_messages::CHUNK_LINE_LIMIT;
use httparse::{Status, parse_chunk_size};
use outer_ends::Source;

/// What the bytes at the front of a buffer are.
#[derive(Clone, Copy, Debug, PartialEq, Eq)]
pub enum Line {
    /// A whole chunk line of so many bytes, and the size that it says.
    Whole(usize, u64),
    /// A part of one.
    Open,
    /// Neither, whatever may follow.
    Never,
}

/// What was found where a chunk line should stand.
#[derive(Clone, Copy, Debug, PartialEq, Eq)]
pub enum LineEnd {
    /// A chunk line of so many bytes, and the size that it says.
    Line(usize, u64),
    /// No chunk line.
    Bad,
    /// The input ended before the line did.
    Cut,
    /// The source failed before.
    Fault,
}

// What the first 1,024 bytes of a buffer are.
fn judge_line(bytes: &[u8]) -> Line
    ensures { (buffer : List ℕ) → bytes.now ≡ take CHUNK_LINE_LIMIT buffer → LineIs buffer result }
{
    match parse_chunk_size(bytes) {
        Ok(Status::Complete((len, size))) => Line::Whole(len, size),
        Ok(Status::Partial) => Line::Open,
        Err(_) => Line::Never,
    }
}

/// Reads until a chunk line of at most 1,024 bytes is at the front of the buffer, where it stays.
pub fn take_line<S: Source>(source: &mut S, buffer: &mut Buffer) -> LineEnd
    ensures adds { Adds buffer.old buffer.new (S.told source.old) (S.told source.new) }
    ensures line { LineOn buffer.new (S.told source.new).left result }
    ensures cause { LineCause (S.told source.old) (S.told source.new) result }
{
    'reading: loop {
        let bytes = buffer.as_slice();
        match judge_line(&bytes[..bytes.len().min(CHUNK_LINE_LIMIT)]) {
            Line::Whole(len, size) => return LineEnd::Line(len, size),
            Line::Never => return LineEnd::Bad,
            Line::Open => {
                if CHUNK_LINE_LIMIT <= bytes.len() {
                    return LineEnd::Bad;
                }
            }
        }
        match buffer.fill(source) {
            Fill::More => (),
            Fill::End => return LineEnd::Cut,
            Fill::Failed => return LineEnd::Fault,
        }
    }
}
