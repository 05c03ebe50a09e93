//! Two threads on one store: what they were sent is what one thread is sent for the same requests in the order of the history.
ghost use Rattle.std.specs.Prelude.{IfOk, IsSome};

use crate::serve_alone;
use ident_rules::NoMemory;
use outer_ends::{MemoryListener, MemorySink, MemorySource, OpenGate};
use request_tasks::LentTasks;
use resource_schema::Schema;
use serve_tests::MemoryStation;
use serving::serve_store;
use session_engine::Limits;
use std::alloc::Global;
use std::str;
use std::sync::Wait;
use std::test::Fail;
use std::thread::Threads;
use task_run::JsonSubject;
use worker_stations::Station;

/// How many notes each thread makes.
const COUNT: usize = 500;

/// A note of the first thread.
const FIRST: &[u8] =
    b"POST /notes HTTP/1.1\r\nHost: h\r\nContent-Type: application/vnd.api+json\r\nContent-Length: 55\r\n\r\n{\"data\":{\"type\":\"notes\",\"attributes\":{\"text\":\"first\"}}}";

/// A note of the second thread.
const SECOND: &[u8] =
    b"POST /notes HTTP/1.1\r\nHost: h\r\nContent-Type: application/vnd.api+json\r\nContent-Length: 56\r\n\r\n{\"data\":{\"type\":\"notes\",\"attributes\":{\"text\":\"second\"}}}";

/// A listener that gives one connection, on which that comes in.
fn listener_of(alloc: Global, bytes: Vec<u8>) -> Result<MemoryListener, NoMemory> {
    let mut connections = Vec::new(alloc);
    let source = MemorySource::new(bytes, 1_000, Vec::new(alloc));
    connections.push((source, MemorySink::new(alloc, Vec::new(alloc))))?;
    Ok(MemoryListener::new(alloc, connections, Vec::new(alloc)))
}

/// A request, so many times.
fn times(alloc: Global, request: &[u8]) -> Result<Vec<u8>, NoMemory> {
    let mut bytes = Vec::new(alloc);
    for _ in 0..COUNT {
        bytes.extend_from_slice(request)?;
    }
    Ok(bytes)
}

/// What was written on the one connection of a listener.
fn sent(listener: &MemoryListener) -> &str {
    match listener.closed() {
        [(_, sink)] => str::from_utf8(sink.written()).unwrap_or(""),
        _ => "",
    }
}

/// The id of the note that a reply tells.
fn id_of(reply: &str) -> Option<u64> {
    let (_, behind) = reply.split_once(r#""id":""#)?;
    let (id, _) = behind.split_once('"')?;
    id.parse().ok()
}

/// The replies that were sent, each behind its `HTTP/1.1 `.
fn replies<'t>(alloc: Global, sent: &'t str) -> Result<Vec<&'t str>, NoMemory> {
    let mut replies = Vec::new(alloc);
    for reply in sent.split("HTTP/1.1 ").skip(1) {
        replies.push(reply)?;
    }
    Ok(replies)
}

/// The replies of one thread, and how many of them stand in the history so far.
#[derive(Drop)]
struct ReplyList<'t> {
    replies: Vec<&'t str>,
    taken: usize,
}

impl<'t> ReplyList<'t> {
    /// Takes the next reply where it tells the note of that id.
    fn take(&mut self, id: u64) -> Option<&'t str> {
        let reply = *self.replies.get(self.taken)?;
        if id_of(reply)? != id {
            return None;
        }
        self.taken += 1;
        Some(reply)
    }
}

/// What came in and what was sent, in the order of the history.
#[derive(Drop)]
struct InOrder {
    bytes: Vec<u8>,
    sent: Vec<u8>,
}

/// The requests and the replies of both threads in the order of the notes' ids. None where these are not the numbers from 1, each once, and
/// in each thread in their order.
fn in_order(alloc: Global, first: &str, second: &str) -> Result<Option<InOrder>, NoMemory> {
    let mut order = InOrder {
        bytes: Vec::new(alloc),
        sent: Vec::new(alloc),
    };
    let mut firsts = ReplyList {
        replies: replies(alloc, first)?,
        taken: 0,
    };
    let mut seconds = ReplyList {
        replies: replies(alloc, second)?,
        taken: 0,
    };
    for id in 1..=1_000 {
        let (request, reply) = match (firsts.take(id), seconds.take(id)) {
            (Some(reply), None) => (FIRST, reply),
            (None, Some(reply)) => (SECOND, reply),
            _ => return Ok(None),
        };
        order.bytes.extend_from_slice(request)?;
        order.sent.extend_from_slice(b"HTTP/1.1 ")?;
        order.sent.extend_from_slice(reply.as_bytes())?;
    }
    Ok(Some(order))
}

/// A station whose one connection makes so many notes.
fn station(alloc: Global, request: &[u8]) -> Result<MemoryStation, NoMemory>
    ensures { IfOk result (λ s. IsSome s.gate) }
{
    let listener = listener_of(alloc, times(alloc, request)?)?;
    Ok(Station::new(listener, OpenGate))
}

/// What one thread is sent for these requests.
fn is_sent_alone(alloc: Global, schema: &Schema, order: InOrder) -> Result<bool, NoMemory> {
    let InOrder {
        bytes,
        sent: wanted,
    } = order;
    let subject = JsonSubject::new(schema.copy(alloc)?);
    let planner = LentTasks { schema };
    let mut listener = listener_of(alloc, bytes)?;
    let end = serve_alone(alloc, subject, &planner, 0, &mut listener)?;
    Ok(end.entries == 1_000 && sent(&listener).as_bytes() == wanted.as_slice())
}

/// Whether two threads make one history.
fn is_one_history<R: Threads + Wait + Sync>(rt: &R, alloc: Global) -> Result<bool, NoMemory> {
    let schema = Schema::notes(alloc)?;
    let subject = JsonSubject::new(schema.copy(alloc)?);
    let planner = LentTasks { schema: &schema };
    let mut stations = [station(alloc, FIRST)?, station(alloc, SECOND)?];
    let served = serve_store(
        rt,
        alloc,
        Limits::standard(),
        subject,
        &planner,
        &mut stations,
        1,
    )?;
    let first = sent(&stations[0].listener);
    let second = sent(&stations[1].listener);
    match in_order(alloc, first, second)? {
        Some(order) => Ok(served.entries == 1_000 && is_sent_alone(alloc, &schema, order)?),
        None => Ok(false),
    }
}

#[test]
fn two_threads_make_one_history(rt: HostRuntime) -> Result<(), Fail> {
    assert!(rt; is_one_history(&rt, rt.alloc())?);
    Ok(())
}
