ghost use Rattle.outer_ends.specs.Causes.{HasCause, KeepsCause};
ghost use Rattle.outer_ends.specs.Streams.{Sends};
ghost use Rattle.http_messages.specs.Draft.{AddsText};
ghost use Rattle.http_messages.specs.ReplyText.{length_line, location_line, start_text, reply_text};

use crate::Reply;
use crate::draft::Draft;
use crate::lines::{allow_of, body_of, closing_of, content_of, reason_of};
use ident_rules::Text;
use itoa::Buffer;
use outer_ends::{Failed, Sink};

/// The bytes of a reply that wait where no room is lent.
const OWN_ROOM: usize = 1_024;

/// Adds the lines that every reply has, and the one that tells what its body is.
fn add_start<K: Sink>(draft: &mut Draft<'_>, reply: &Reply, sink: &mut K)
    ensures text { AddsText (K.told sink.old) (K.told sink.new) draft.old draft.new (start_text reply.now) }
    ensures cause { KeepsCause (K.told sink.old).faults (K.told sink.new).faults draft.old.sent draft.new.sent }
{
    let mut status = Buffer::new();
    draft.add(b"HTTP/1.1 ", sink);
    draft.add(status.format(reply.status).as_bytes(), sink);
    draft.add(b" ", sink);
    draft.add(reason_of(reply.status), sink);
    draft.add(b"\r\nVary: Accept\r\n", sink);
    draft.add(content_of(reply.content), sink);
}

/// Adds the line that tells the body's length.
fn add_length<K: Sink>(draft: &mut Draft<'_>, status: u16, length: usize, sink: &mut K)
    ensures text { AddsText (K.told sink.old) (K.told sink.new) draft.old draft.new (length_line status length) }
    ensures cause { KeepsCause (K.told sink.old).faults (K.told sink.new).faults draft.old.sent draft.new.sent }
{
    if status == 204 {
        draft.add(b"", sink);
        return;
    }
    let mut digits = Buffer::new();
    draft.add(b"Content-Length: ", sink);
    draft.add(digits.format(length).as_bytes(), sink);
    draft.add(b"\r\n", sink);
}

/// Adds the line that tells a place.
fn add_location<K: Sink>(draft: &mut Draft<'_>, location: &Option<Text>, sink: &mut K)
    ensures text { AddsText (K.told sink.old) (K.told sink.new) draft.old draft.new (location_line location.now) }
    ensures cause { KeepsCause (K.told sink.old).faults (K.told sink.new).faults draft.old.sent draft.new.sent }
{
    match location {
        None => draft.add(b"", sink),
        Some(text) => {
            draft.add(b"Location: ", sink);
            draft.add(text.as_str().as_bytes(), sink);
            draft.add(b"\r\n", sink);
        }
    }
}

/// Writes the reply, whose pieces wait in that room: without its body for a HEAD request, and with the line that closes the
/// connection where it does.
///
/// It takes no memory. A text that the room holds leaves in one piece; of a longer one the head leaves first, and then the
/// body. After `Failed` a proper prefix of the text was written.
#[tactic(auto, unfolding(crate::specs::ReplyText::reply_text))]
pub fn send_reply_by<K: Sink>(
    room: &mut [u8],
    reply: &Reply,
    head_only: bool,
    close: bool,
    sink: &mut K,
) -> Result<(), Failed>
    ensures sends { Sends (K.told sink.old) (K.told sink.new) (reply_text reply.now head_only close) result }
    ensures cause { HasCause (K.told sink.old).faults (K.told sink.new).faults result }
{
    let mut draft = Draft::new(room);
    add_start(&mut draft, reply, sink);
    add_length(&mut draft, reply.status, reply.body.as_slice().len(), sink);
    add_location(&mut draft, &reply.location, sink);
    draft.add(allow_of(reply.allow), sink);
    draft.add(closing_of(close), sink);
    draft.add(b"\r\n", sink);
    draft.add(body_of(reply, head_only), sink);
    draft.finish(sink)
}

/// Writes the reply as `send_reply_by` does, in a room of 1,024 bytes of its own. It takes no memory.
pub fn send_reply<K: Sink>(
    reply: &Reply,
    head_only: bool,
    close: bool,
    sink: &mut K,
) -> Result<(), Failed>
    ensures sends { Sends (K.told sink.old) (K.told sink.new) (reply_text reply.now head_only close) result }
    ensures cause { HasCause (K.told sink.old).faults (K.told sink.new).faults result }
{
    let mut room = [0; OWN_ROOM];
    send_reply_by(&mut room, reply, head_only, close, sink)
}
