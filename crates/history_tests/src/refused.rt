//! A desk whose trials are refused three times.
ghost use Rattle.std.specs.Prelude.{IfOk};
ghost use Rattle.outer_ends.specs.Memory.{IsNew};

use crate::{Meddled, serve_meddled};
use ident_rules::NoMemory;
use outer_ends::{MemoryListener, MemorySink, MemorySource};
use request_tasks::LentTasks;
use resource_schema::Schema;
use serve_tests::{Client, listener, was_sent};
use std::alloc::Global;
use std::sync::Wait;
use std::test::Fail;
use task_run::JsonSubject;

/// A note is made, and the notes are asked for.
const MAKES: Client = Client {
    bytes: b"POST /notes HTTP/1.1\r\nHost: h\r\nContent-Type: application/vnd.api+json\r\nContent-Length: 54\r\n\r\n{\"data\":{\"type\":\"notes\",\"attributes\":{\"text\":\"mine\"}}}GET /notes HTTP/1.1\r\nHost: h\r\n\r\n",
    pieces: &[
        "HTTP/1.1 201 ",
        r#"{"data":{"attributes":{"text":"mine"},"id":"4","#,
        "HTTP/1.1 200 ",
        r#"{"attributes":{"text":"other"},"id":"1","#,
        r#"{"attributes":{"text":"other"},"id":"2","#,
        r#"{"attributes":{"text":"other"},"id":"3","#,
        r#"{"attributes":{"text":"mine"},"id":"4","#,
    ],
};

/// A note is made meanwhile.
const OTHER: &[u8] =
    b"POST /notes HTTP/1.1\r\nHost: h\r\nContent-Type: application/vnd.api+json\r\nContent-Length: 55\r\n\r\n{\"data\":{\"type\":\"notes\",\"attributes\":{\"text\":\"other\"}}}";

/// What is sent on the three connections of the others, in their order.
const SENT: [&[&str]; 3] = [
    &["HTTP/1.1 201 ", r#""id":"1","#],
    &["HTTP/1.1 201 ", r#""id":"2","#],
    &["HTTP/1.1 201 ", r#""id":"3","#],
];

/// A connection on which a note is made.
fn other(alloc: Global) -> Result<(MemorySource, MemorySink), NoMemory>
    ensures { IfOk result IsNew }
{
    let bytes = Vec::from_slice(alloc, OTHER)?;
    let source = MemorySource::new(bytes, 100, Vec::new(alloc));
    Ok((source, MemorySink::new(alloc, Vec::new(alloc))))
}

/// A listener that gives three connections on each of which a note is made.
fn others(alloc: Global) -> Result<MemoryListener, NoMemory> {
    let mut connections = Vec::new(alloc);
    connections.push(other(alloc)?)?;
    connections.push(other(alloc)?)?;
    connections.push(other(alloc)?)?;
    Ok(MemoryListener::new(alloc, connections, Vec::new(alloc)))
}

/// Whether that was sent on the connections of the others.
fn were_sent(closed: &[(MemorySource, MemorySink)]) -> bool {
    closed.len() == 3
        && was_sent(&closed[..1], SENT[0])
        && was_sent(&closed[1..2], SENT[1])
        && was_sent(&closed[2..], SENT[2])
}

/// How often the gate was passed, and how many entries the desk made. None where something else was sent.
fn passed<R: Wait>(rt: &R, alloc: Global) -> Result<Option<(u64, u64)>, NoMemory> {
    let schema = Schema::notes(alloc)?;
    let subject = JsonSubject::new(schema.copy(alloc)?);
    let planner = LentTasks { schema: &schema };
    let mut own = listener(alloc, &MAKES)?;
    let meddled = serve_meddled(rt, alloc, subject, &planner, &mut own, others(alloc)?)?;
    let Some(
        Meddled {
            end,
            passed,
            others,
        },
    ) = meddled
    else {
        return Ok(None);
    };
    if was_sent(own.closed(), MAKES.pieces) && were_sent(others.closed()) {
        Ok(Some((passed, end.entries)))
    } else {
        Ok(None)
    }
}

// Each of three tries is refused, since a note was made at the gate; then the task is settled. The fourth pass is that of the list.
#[test]
fn three_refusals_are_settled(rt: HostRuntime) -> Result<(), Fail> {
    assert_eq!(rt; passed(&rt, rt.alloc())?, Some((4, 2)));
    Ok(())
}
