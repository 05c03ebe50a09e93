//! Stations over connections in memory, and what was sent on these.
ghost use Rattle.std.specs.Prelude.{All, IfOk, IsSome};

use commit_core::Core;
use connection_workers::WorkerEnd;
use history_lock::Pass;
use ident_rules::NoMemory;
use outer_ends::{MemoryListener, MemorySink, MemorySource, OpenGate};
use resource_schema::Schema;
use std::alloc::Global;
use std::str;
use task_forms::Entry;
use task_run::JsonSubject;
use worker_stations::Station;

/// A station over connections in memory, whose gate stands open.
pub type MemoryStation = Station<
    MemoryListener,
    OpenGate,
    Pass<Core<JsonSubject>, Entry, Schema>,
    WorkerEnd,
>;

/// A connection: what comes in on it, and what is to be written on it, one piece behind the other. Where no piece is to be written, the
/// connection is not to be accepted.
#[derive(Clone, Copy)]
pub struct Client {
    /// What comes in.
    pub bytes: &'static [u8],
    /// What is to be written.
    pub pieces: &'static [&'static str],
}

/// A listener that gives one connection, and fails then.
pub fn listener(alloc: Global, client: &Client) -> Result<MemoryListener, NoMemory> {
    let bytes = Vec::from_slice(alloc, client.bytes)?;
    let source = MemorySource::new(bytes, 100, Vec::new(alloc));
    let sink = MemorySink::new(alloc, Vec::new(alloc));
    let mut connections = Vec::new(alloc);
    connections.push((source, sink))?;
    Ok(MemoryListener::new(alloc, connections, Vec::new(alloc)))
}

/// A station for each of these clients.
pub fn stations(alloc: Global, clients: &[Client]) -> Result<Vec<MemoryStation>, NoMemory>
    ensures { IfOk result (λ v. All (λ s. IsSome s.gate) v.items) }
{
    let mut stations = Vec::new(alloc);
    for client in clients {
        stations.push(Station::new(listener(alloc, client)?, OpenGate))?;
    }
    Ok(stations)
}

/// Whether these pieces stand in a text, one behind the other.
fn stand_so(text: &str, pieces: &[&str]) -> bool {
    let mut rest = text;
    for piece in pieces {
        let Some((_, behind)) = rest.split_once(*piece) else {
            return false;
        };
        rest = behind;
    }
    true
}

/// Whether that was written.
fn was_written(written: &[u8], pieces: &[&str]) -> bool {
    match str::from_utf8(written) {
        Ok(text) => stand_so(text, pieces),
        Err(_) => false,
    }
}

/// Whether these connections that were given back are the one on which that was written.
pub fn was_sent(closed: &[(MemorySource, MemorySink)], pieces: &[&str]) -> bool {
    match closed {
        [] => pieces.is_empty(),
        [(_, sink)] => !pieces.is_empty() && was_written(sink.written(), pieces),
        _ => false,
    }
}

/// Whether what was to be written was written on the connection of each station.
pub fn were_served(stations: &[MemoryStation], clients: &[Client]) -> bool {
    let mut all = stations.len() == clients.len();
    for (station, client) in stations.iter().zip(clients) {
        all = all && was_sent(station.listener.closed(), client.pieces);
    }
    all
}
