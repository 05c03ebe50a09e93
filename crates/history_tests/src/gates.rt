//! Two workers at once: one is held at its gate until the other one has written.
ghost use Rattle.std.specs.Prelude.{◌≡◌, All, IsSome, length};

use crate::{FlagListener, Hold};
use commit_core::Core;
use connection_workers::WorkerEnd;
use history_lock::Pass;
use ident_rules::NoMemory;
use outer_ends::MemoryListener;
use request_tasks::LentTasks;
use resource_schema::Schema;
use serve_lines::Served;
use serve_tests::{Client, listener, was_sent};
use serving::serve_store;
use session_engine::Limits;
use std::alloc::Global;
use std::sync::Wait;
use std::sync::atomic::AtomicBool;
use std::test::Fail;
use std::thread::Threads;
use task_forms::Entry;
use task_run::JsonSubject;
use worker_stations::Station;

/// How many turns a held worker waits at most.
const TURNS: u64 = 200_000_000;

/// The notes are asked for.
const LISTS: Client = Client {
    bytes: b"GET /notes HTTP/1.1\r\nHost: h\r\n\r\n",
    pieces: &["HTTP/1.1 200 ", r#"{"data":[],"#],
};

/// A station whose gate holds for so many turns until the first flag is set; with each write on its connection the second one is set.
type HeldStation<'a> = Station<
    FlagListener<'a>,
    Hold<'a>,
    Pass<Core<JsonSubject>, Entry, Schema>,
    WorkerEnd,
>;

/// A station over this listener.
fn station<'a>(
    inner: MemoryListener,
    turns: u64,
    holds: &'a AtomicBool,
    sets: &'a AtomicBool,
) -> HeldStation<'a>
    ensures { IsSome result.gate }
{
    let listener = FlagListener { inner, flag: sets };
    let gate = Hold {
        flag: holds,
        turns,
        released: false,
    };
    Station::new(listener, gate)
}

/// Whether the worker of a station was released at its gate.
fn was_released(station: &HeldStation<'_>) -> bool {
    match &station.gate {
        Some(gate) => gate.released,
        None => false,
    }
}

/// Whether the list was written on the connection of a station.
fn is_listed(station: &HeldStation<'_>) -> bool {
    was_sent(station.listener.inner.closed(), LISTS.pieces)
}

/// Serves the two stations.
fn serve_both<R: Threads + Wait + Sync>(
    rt: &R,
    alloc: Global,
    stations: &mut [HeldStation<'_>],
) -> Result<Served, NoMemory>
    requires two { length stations.old ≡ 2 }
    requires gates { All (λ s. IsSome s.gate) stations.old }
{
    let schema = Schema::notes(alloc)?;
    let subject = JsonSubject::new(schema.copy(alloc)?);
    let planner = LentTasks { schema: &schema };
    serve_store(
        rt,
        alloc,
        Limits::standard(),
        subject,
        &planner,
        stations,
        1,
    )
}

/// Whether a worker that was held was released by what the other one wrote.
fn releases<R: Threads + Wait + Sync>(rt: &R, alloc: Global) -> Result<bool, NoMemory> {
    let one = listener(alloc, &LISTS)?;
    let other = listener(alloc, &LISTS)?;
    let written = AtomicBool::new(false);
    let unheeded = AtomicBool::new(false);
    let held = station(one, TURNS, &written, &unheeded);
    let free = station(other, 0, &unheeded, &written);
    let mut stations = [held, free];
    let served = serve_both(rt, alloc, &mut stations)?;
    let listed = is_listed(&stations[0]) && is_listed(&stations[1]);
    Ok(listed && was_released(&stations[0]) && served.entries == 2)
}

#[test]
fn two_workers_serve_at_once(rt: HostRuntime) -> Result<(), Fail> {
    assert!(rt; releases(&rt, rt.alloc())?);
    Ok(())
}
