ghost use Rattle.std.specs.Prelude.{decimal};
ghost use Rattle.outer_ends.specs.Causes.{HasCause, KeepsCause};
ghost use Rattle.outer_ends.specs.Streams.{Sends, SendsMore};
ghost use Rattle.serve_lines.specs.Served.{served_text};

use itoa::Buffer;
use outer_ends::{Failed, Sink, send_all, send_more};

/// What the workers of a server did together.
#[derive(Clone, Copy, Debug, PartialEq, Eq)]
pub struct Served {
    /// The connections that were served.
    pub sessions: u64,
    /// The messages that were answered on them.
    pub requests: u64,
    /// The entries of the history.
    pub entries: u64,
}

// Writes a number behind what was sent.
fn send_number<K: Sink>(before: Result<(), Failed>, number: u64, sink: &mut K) -> Result<(), Failed>
    ensures sends { SendsMore (K.told sink.old) (K.told sink.new) (decimal number) before result }
    ensures cause { KeepsCause (K.told sink.old).faults (K.told sink.new).faults before result }
{
    let mut buffer = Buffer::new();
    send_more(before, buffer.format(number).as_bytes(), sink)
}

/// Writes the line `sessions A requests B entries C`. After `Failed`, which is answered only where the sink's count rose, a proper prefix of
/// it was written. Takes no memory.
pub fn tell_served<K: Sink>(served: Served, sink: &mut K) -> Result<(), Failed>
    ensures sends { Sends (K.told sink.old) (K.told sink.new) (served_text served) result }
    ensures cause { HasCause (K.told sink.old).faults (K.told sink.new).faults result }
{
    let begun = send_all(b"sessions ", sink);
    let sessions = send_number(begun, served.sessions, sink);
    let named = send_more(sessions, b" requests ", sink);
    let requests = send_number(named, served.requests, sink);
    let behind = send_more(requests, b" entries ", sink);
    let entries = send_number(behind, served.entries, sink);
    send_more(entries, b"\n", sink)
}
