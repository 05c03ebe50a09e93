//! Serving.
ghost use Rattle.std.specs.Prelude.{◌≡◌, ◌<◌, ◌≤◌, All, IfSome, IsNone, IsSome, length};
ghost use Rattle.connection_workers.specs.declared.workers.TheConstants.{QUOTA_LIMIT};
ghost use Rattle.command_lines.specs.Lines.{Writes};
ghost use Rattle.serve_lines.specs.declared.words.TheConstants.{WORKER_LIMIT};
ghost use Rattle.serve_lines.specs.Served.{served_text};
ghost use Rattle.serve_lines.specs.Words.{serve_words};
ghost use Rattle.serve_command.specs.Serves.{served_status, ServesSchema, ServesRead, ServesBy};

use command_lines::{SchemaRead, read_schema_file, refuse, refuse_schema};
use commit_core::Core;
use connection_workers::WorkerEnd;
use history_lock::Pass;
use ident_rules::{NoMemory, Text};
use outer_ends::{Failed, Gate, Listener, Opener, Sink};
use request_tasks::LentTasks;
use resource_schema::Schema;
use serve_lines::{Served, serve_path, serve_words, tell_served};
use serving::{all_by_quota, serve_store};
use session_engine::Limits;
use std::alloc::Global;
use std::sync::Wait;
use std::thread::Threads;
use task_forms::Entry;
use task_run::JsonSubject;
use worker_stations::Station;

/// The exit status where the line was written.
fn served_status<L, G, P>(stations: &[Station<L, G, P, WorkerEnd>]) -> u8
    ensures { result ≡ served_status stations.now }
{
    if all_by_quota(stations) { 0 } else { 1 }
}

/// Writes what the workers did.
fn tell<L, G, P, K: Sink>(
    stations: &[Station<L, G, P, WorkerEnd>],
    served: Served,
    sink: &mut K,
) -> u8
    ensures { Writes (served_status stations.now) (served_text served) (K.told sink.old) (K.told sink.new) result }
{
    match tell_served(served, sink) {
        Ok(()) => served_status(stations),
        Err(Failed) => 1,
    }
}

/// Serves a new store of a schema.
fn serve_schema<
    L: Listener<Src: Send, Snk: Send> + Send,
    G: Gate + Drop + Send,
    K: Sink,
    R: Threads + Wait + Sync,
>(
    rt: &R,
    alloc: Global,
    schema: &Schema,
    quota: u64,
    stations: &mut [Station<L, G, Pass<Core<JsonSubject>, Entry, Schema>, WorkerEnd>],
    sink: &mut K,
) -> u8
    requires some { 0 < length stations.old }
    requires few { length stations.old ≤ WORKER_LIMIT }
    requires quota { quota ≤ QUOTA_LIMIT }
    requires gates { All (λ s. IsSome s.gate) stations.old }
    ensures { ServesSchema L.told stations.old stations.new (K.told sink.old) (K.told sink.new) result schema.now quota }
{
    let Ok(own) = schema.copy(alloc) else {
        return 5;
    };
    let limits = Limits::standard();
    let planner = LentTasks { schema };
    match serve_store(
        rt,
        alloc,
        limits,
        JsonSubject::new(own),
        &planner,
        stations,
        quota,
    ) {
        Ok(served) => tell(stations, served, sink),
        Err(NoMemory) => 5,
    }
}

/// Serves what a schema file gave.
fn serve_read<
    L: Listener<Src: Send, Snk: Send> + Send,
    G: Gate + Drop + Send,
    K: Sink,
    R: Threads + Wait + Sync,
>(
    rt: &R,
    alloc: Global,
    path: &str,
    read: SchemaRead,
    quota: u64,
    stations: &mut [Station<L, G, Pass<Core<JsonSubject>, Entry, Schema>, WorkerEnd>],
    sink: &mut K,
) -> u8
    requires some { 0 < length stations.old }
    requires few { length stations.old ≤ WORKER_LIMIT }
    requires quota { quota ≤ QUOTA_LIMIT }
    requires gates { All (λ s. IsSome s.gate) stations.old }
    ensures { ServesRead L.told stations.old stations.new (K.told sink.old) (K.told sink.new) result path.now read quota }
{
    match read {
        SchemaRead::Good(schema) => serve_schema(rt, alloc, &schema, quota, stations, sink),
        SchemaRead::Missing => refuse("missing ", path, sink),
        SchemaRead::TooLarge => refuse("schema too large", "", sink),
        SchemaRead::Fault { place, why } => refuse_schema(place.as_str(), why, sink),
        SchemaRead::Failed => 1,
        SchemaRead::NoMemory => 5,
    }
}

/// The command `serve`, given the words behind the program's name, `serve PATH ADDRESS WORKERS QUOTA`: serves the types of the schema file
/// PATH on one new store. There are as many stations as WORKERS, each with a gate. One worker runs at each, in a thread of its own where one
/// can be made; it serves the connections of its listener, QUOTA of them at most. ADDRESS is for whoever made the listeners. When all have
/// ended one line is written: `sessions A requests B entries C`, the connections, the messages that were answered on them, and the length
/// of the one history. The answer is the exit status:
///
/// - 0: every worker served QUOTA connections, and the line was written;
/// - 1: a listener, the opener or the sink failed, and its count says so;
/// - 2: one line was written: `jsonapid: words` where the words are others, or that of a schema file that is missing, too large or faulty.
///   No connection was accepted;
/// - 5: want of memory before a worker ran. No connection was accepted.
///
/// It may wait.
pub fn serve_command<
    O: Opener,
    L: Listener<Src: Send, Snk: Send> + Send,
    G: Gate + Drop + Send,
    K: Sink,
    R: Threads + Wait + Sync,
>(
    rt: &R,
    alloc: Global,
    words: &[Text],
    opener: &mut O,
    stations: &mut [Station<L, G, Pass<Core<JsonSubject>, Entry, Schema>, WorkerEnd>],
    sink: &mut K,
) -> u8
    requires gates { All (λ s. IsSome s.gate) stations.old }
    requires as_many { IfSome (serve_words words.now) (λ w. length stations.old ≡ w.workers) }
    ensures serves { ServesBy L.told stations.old stations.new (K.told sink.old) (K.told sink.new) result O.Src.told words.now (O.told opener.old) (O.told opener.new) }
    ensures unasked { IsNone (serve_words words.now) → opener.new ≡ opener.old }
{
    let Some(asked) = serve_words(words) else {
        return refuse("words", "", sink);
    };
    let Some(path) = serve_path(words) else {
        return refuse("words", "", sink);
    };
    let read = read_schema_file(alloc, path.as_str(), opener);
    serve_read(rt, alloc, path.as_str(), read, asked.quota, stations, sink)
}
