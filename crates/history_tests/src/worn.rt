//! Desks at the end of the counter.
ghost use Rattle.std.specs.Prelude.{◌≤◌, ◌^◌};

use crate::{serve_alone, serve_shared};
use connection_workers::{Cause, WorkerEnd};
use ident_rules::NoMemory;
use request_tasks::LentTasks;
use resource_schema::Schema;
use serve_tests::{Client, listener, was_sent};
use std::alloc::Global;
use std::sync::Wait;
use std::test::Fail;
use task_run::JsonSubject;

/// The number of the last entry that a history may have.
const LAST: u64 = 1 << 62;

/// A note is made, and asked for; then the history is full.
const FILLS: Client = Client {
    bytes: b"POST /notes HTTP/1.1\r\nHost: h\r\nContent-Type: application/vnd.api+json\r\nContent-Length: 55\r\n\r\n{\"data\":{\"type\":\"notes\",\"attributes\":{\"text\":\"hello\"}}}GET /notes/1 HTTP/1.1\r\nHost: h\r\n\r\nGET /notes HTTP/1.1\r\nHost: h\r\n\r\n",
    pieces: &[
        "HTTP/1.1 201 ",
        r#""id":"1""#,
        "HTTP/1.1 200 ",
        r#"{"data":{"attributes":{"text":"hello"},"id":"1","#,
        "HTTP/1.1 507 ",
    ],
};

/// The history is full.
const FINDS_FULL: Client = Client {
    bytes: b"GET /notes HTTP/1.1\r\nHost: h\r\n\r\nGET /notes HTTP/1.1\r\nHost: h\r\n\r\n",
    pieces: &["HTTP/1.1 507 "],
};

/// What a worker over a core of its own comes to. None where something else was sent.
fn alone(alloc: Global, first: u64, client: &Client) -> Result<Option<WorkerEnd>, NoMemory>
    requires first { first ≤ 2 ^ 62 }
{
    let schema = Schema::notes(alloc)?;
    let subject = JsonSubject::new(schema.copy(alloc)?);
    let planner = LentTasks { schema: &schema };
    let mut listener = listener(alloc, client)?;
    let end = serve_alone(alloc, subject, &planner, first, &mut listener)?;
    if was_sent(listener.closed(), client.pieces) {
        Ok(Some(end))
    } else {
        Ok(None)
    }
}

/// The same over a store that connections share.
fn shared<R: Wait>(
    rt: &R,
    alloc: Global,
    first: u64,
    client: &Client,
) -> Result<Option<WorkerEnd>, NoMemory>
    requires first { first ≤ 2 ^ 62 }
{
    let schema = Schema::notes(alloc)?;
    let subject = JsonSubject::new(schema.copy(alloc)?);
    let planner = LentTasks { schema: &schema };
    let mut listener = listener(alloc, client)?;
    let end = serve_shared(rt, alloc, subject, &planner, first, &mut listener)?;
    if was_sent(listener.closed(), client.pieces) {
        Ok(end)
    } else {
        Ok(None)
    }
}

/// A worker that ended since the history is full.
fn worn(requests: u64) -> Option<WorkerEnd> {
    Some(WorkerEnd {
        sessions: 1,
        requests,
        entries: requests,
        cause: Cause::Worn,
    })
}

/// Whether a full history takes nothing, and one with two places left takes two entries: over a core of its own, and over one that is shared.
fn takes_no_more<R: Wait>(rt: &R, alloc: Global) -> Result<bool, NoMemory> {
    let full = alone(alloc, LAST, &FINDS_FULL)?;
    let filled = alone(alloc, LAST - 2, &FILLS)?;
    let shared_full = shared(rt, alloc, LAST, &FINDS_FULL)?;
    let shared_filled = shared(rt, alloc, LAST - 2, &FILLS)?;
    let are_full = full == worn(0) && shared_full == worn(0);
    Ok(are_full && filled == worn(2) && shared_filled == worn(2))
}

#[test]
fn a_full_history_takes_nothing(rt: HostRuntime) -> Result<(), Fail> {
    assert!(rt; takes_no_more(&rt, rt.alloc())?);
    Ok(())
}
