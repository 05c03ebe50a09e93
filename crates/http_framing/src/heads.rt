ghost use Rattle.std.specs.Prelude.{◌≡◌, ◌++◌, false, IfSome};
ghost use Rattle.http_model.specs.Blanks.{empty_lines};
ghost use Rattle.http_framing.specs.Taken.{TakesHead, HeadCause, HeadOfRest};

use crate::buffer::{Buffer, Fill};
use crate::fronts::HeadSoFar;
use http_messages::{HEAD_LIMIT, Message};
use http_model::{heads_are_decided, read_stays};
use outer_ends::Source;
use std::alloc::Global;

/// What was found where a head should stand.
#[derive(Drop)]
pub enum HeadEnd {
    /// A head of at most 16,384 bytes, empty lines before it included, and 64 fields: a message with no body.
    Head(Message),
    /// The input ended between messages: behind nothing, or behind empty lines.
    End,
    /// The input ended inside a head.
    CutShort,
    /// The first 16,384 bytes, or fewer, begin no head, whatever may follow.
    Bad,
    /// The first 16,384 bytes begin with no head that ends in them.
    TooLarge,
    /// The head has more than 64 fields.
    TooMany,
    /// The source failed, and its count says so.
    ReadFault,
    /// There was no memory for the message. The bytes that were read stand in the buffer.
    NoMemory,
}

// Whether the bytes are empty lines alone.
fn is_empty_lines(bytes: &[u8]) -> bool
    ensures { result ≡ empty_lines false bytes.now }
{
    let mut cr = false;
    for byte in bytes {
        if *byte == b'\n' {
            cr = false;
        } else if *byte == b'\r' && !cr {
            cr = true;
        } else {
            return false;
        }
    }
    !cr
}

// Reads until the front of the buffer is a whole head, or can't become one.
fn take_front<S: Source>(alloc: Global, source: &mut S, buffer: &mut Buffer) -> HeadEnd
    ensures takes { TakesHead buffer.old buffer.new (S.told source.old) (S.told source.new) result }
    ensures cause { HeadCause (S.told source.old) (S.told source.new) result }
{
    heads_are_decided();
    'reading: loop {
        match buffer.judge(alloc) {
            HeadSoFar::Head(message, len) => {
                buffer.advance(len);
                return HeadEnd::Head(message);
            }
            HeadSoFar::TooMany => return HeadEnd::TooMany,
            HeadSoFar::Never => return HeadEnd::Bad,
            HeadSoFar::NoMemory => return HeadEnd::NoMemory,
            HeadSoFar::Open => {
                if HEAD_LIMIT <= buffer.as_slice().len() {
                    return HeadEnd::TooLarge;
                }
            }
        }
        match buffer.fill(source) {
            Fill::More => (),
            Fill::End => {
                if is_empty_lines(buffer.as_slice()) {
                    return HeadEnd::End;
                }
                return HeadEnd::CutShort;
            }
            Fill::Failed => return HeadEnd::ReadFault,
        }
    }
}

/// Takes the head of the next message from the buffer and the source, reading no further than the read that
/// brings its end (RFC 9112, sections 2.1 and 3). What was read and does not belong to it stays in the buffer.
/// After each answer but `Head` the buffer has all that it had and all that was read.
pub fn take_head<S: Source>(alloc: Global, source: &mut S, buffer: &mut Buffer) -> HeadEnd
    // Of any source: what moved, and the answer by the bytes that were seen.
    ensures takes { TakesHead buffer.old buffer.new (S.told source.old) (S.told source.new) result }
    // Of a source that tells what is left: the answer by all of it, however it was cut.
    ensures rest { IfSome (S.told source.old).left (λ left. HeadOfRest (buffer.old ++ left) buffer.new (S.told source.new).left result) }
    // A fault is answered exactly where the count rose.
    ensures cause { HeadCause (S.told source.old) (S.told source.new) result }
{
    read_stays();
    take_front(alloc, source, buffer)
}
