ghost use Rattle.std.specs.Prelude.{◌≡◌};
ghost use Rattle.outer_ends.specs.Causes.{HasCause};
ghost use Rattle.outer_ends.specs.Streams.{Sends};
ghost use Rattle.http_messages.specs.ReplyText.{interim_text, unavailable_text, stop_text};

use crate::Stop;
use outer_ends::{Failed, Sink, send_all};

/// Writes the text that asks for a body (RFC 9110, section 15.2.1), in one piece.
///
/// After `Failed` a proper prefix of it was written.
#[tactic(auto, unfolding(crate::specs::ReplyText::interim_text))]
pub fn send_continue<K: Sink>(sink: &mut K) -> Result<(), Failed>
    ensures sends { Sends (K.told sink.old) (K.told sink.new) interim_text result }
    ensures cause { HasCause (K.told sink.old).faults (K.told sink.new).faults result }
{
    send_all(b"HTTP/1.1 100 Continue\r\n\r\n", sink)
}

/// Writes the text for want of memory alone (RFC 9110, section 15.6.4), in one piece.
///
/// After `Failed` a proper prefix of it was written.
#[tactic(auto, unfolding(crate::specs::ReplyText::unavailable_text))]
pub fn send_unavailable<K: Sink>(sink: &mut K) -> Result<(), Failed>
    ensures sends { Sends (K.told sink.old) (K.told sink.new) unavailable_text result }
    ensures cause { HasCause (K.told sink.old).faults (K.told sink.new).faults result }
{
    send_all(
        b"HTTP/1.1 503 Service Unavailable\r\nVary: Accept\r\nContent-Length: 0\r\nConnection: close\r\n\r\n",
        sink,
    )
}

#[tactic(auto, unfolding(crate::specs::ReplyText::stop_text))]
fn stop_of(stop: Stop) -> &'static [u8]
    ensures { result.now ≡ stop_text stop }
{
    match stop {
        Stop::Worn =>
            b"HTTP/1.1 507 Insufficient Storage\r\nVary: Accept\r\nContent-Length: 0\r\nConnection: close\r\n\r\n",
        Stop::Store =>
            b"HTTP/1.1 500 Internal Server Error\r\nVary: Accept\r\nContent-Length: 0\r\nConnection: close\r\n\r\n",
        Stop::Feed =>
            b"HTTP/1.1 502 Bad Gateway\r\nVary: Accept\r\nContent-Length: 0\r\nConnection: close\r\n\r\n",
    }
}

/// Writes the text that ends a session for that cause, in one piece.
///
/// After `Failed` a proper prefix of it was written.
pub fn send_stop<K: Sink>(stop: Stop, sink: &mut K) -> Result<(), Failed>
    ensures sends { Sends (K.told sink.old) (K.told sink.new) (stop_text stop) result }
    ensures cause { HasCause (K.told sink.old).faults (K.told sink.new).faults result }
{
    send_all(stop_of(stop), sink)
}
