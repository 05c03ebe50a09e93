//! Lines and notices.
ghost use Rattle.std.specs.Prelude.{◌≡◌};
ghost use Rattle.command_lines.specs.Lines.{status_of_sent, Tells, Refuses, line, schema_line};

use outer_ends::{Failed, Sink, send_all, send_more};
use resource_schema::Why;
use schema_file::word_of;

/// The exit status for a text that was sent.
fn status_of_sent(good: u8, sent: Result<(), Failed>) -> u8
    ensures { result ≡ status_of_sent good sent }
{
    match sent {
        Ok(()) => good,
        Err(Failed) => 1,
    }
}

/// Writes a text. The exit status is 0, or 1 where the sink failed and its count says so.
pub fn tell<K: Sink>(text: &[u8], sink: &mut K) -> u8
    ensures { Tells text.now (K.told sink.old) (K.told sink.new) result }
{
    status_of_sent(0, send_all(text, sink))
}

/// Writes the line of a refusal: what is refused, and a text behind it. The exit status is 2, or 1 where the sink failed and its count
/// says so.
pub fn refuse<K: Sink>(what: &str, text: &str, sink: &mut K) -> u8
    ensures { Refuses (line what.now text.now) (K.told sink.old) (K.told sink.new) result }
{
    let begun = send_all(b"jsonapid: ", sink);
    let named = send_more(begun, what.as_bytes(), sink);
    let told = send_more(named, text.as_bytes(), sink);
    let ended = send_more(told, b"\n", sink);
    status_of_sent(2, ended)
}

/// Writes the line of a schema's fault. The exit status is 2, or 1 where the sink failed and its count says so.
pub fn refuse_schema<K: Sink>(place: &str, why: Why, sink: &mut K) -> u8
    ensures { Refuses (schema_line place.now why) (K.told sink.old) (K.told sink.new) result }
{
    let begun = send_all(b"jsonapid: schema ", sink);
    let placed = send_more(begun, place.as_bytes(), sink);
    let parted = send_more(placed, b" ", sink);
    let told = send_more(parted, word_of(why).as_bytes(), sink);
    let ended = send_more(told, b"\n", sink);
    status_of_sent(2, ended)
}
