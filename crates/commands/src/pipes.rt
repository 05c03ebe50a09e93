ghost use Rattle.std.specs.Prelude.{◌≡◌, IfOk, IsFalse, IsNone, [], codes};
ghost use Rattle.std.specs.Option.{option_copied};
ghost use Rattle.resource_schema.specs.Kinds.{notes};
ghost use Rattle.world_cells.specs.World.{empty_world};
ghost use Rattle.store_model.specs.StoreMeaning.{meaning_of};
ghost use Rattle.commit_core.specs.Standing.{StandsFor};
ghost use Rattle.task_run.specs.Subjects.{subject_kind};
ghost use Rattle.commands.specs.Pipes.{is_pipe, path_of, status_of, Session, Pipes, PipesRead, ends, PipesBy};

use crate::connections::serve_counted;
use command_lines::{SchemaRead, read_schema_file, refuse, refuse_schema};
use http_messages::SessionEnd;
use ident_rules::{NoMemory, Text};
use local_desk::LocalDesk;
use outer_ends::{Opener, Sink, Source};
use resource_schema::Schema;
use session_engine::Limits;
use std::alloc::Global;
use task_run::JsonSubject;

/// Whether the words are `pipe` alone.
fn is_pipe(words: &[Text]) -> bool
    ensures { result ≡ is_pipe words.now }
{
    match words {
        [word] => word.as_str() == "pipe",
        _ => false,
    }
}

/// The path, where the words are `pipe` and a path.
fn path_of(words: &[Text]) -> Option<&Text>
    ensures { option_copied result ≡ path_of words.now }
{
    match words {
        [word, path] if word.as_str() == "pipe" => Some(path),
        _ => None,
    }
}

/// The exit status for an end of the session.
fn status_of(end: SessionEnd) -> u8
    ensures { result ≡ status_of end }
{
    match end {
        SessionEnd::Closed => 0,
        SessionEnd::Refused(_) => 3,
        SessionEnd::CutShort => 4,
        SessionEnd::ReadFault => 1,
        SessionEnd::WriteFault => 1,
        SessionEnd::NoMemory => 5,
        SessionEnd::Worn => 5,
    }
}

/// A desk on a store of its own over a schema, which begins empty.
fn own_desk(alloc: Global, schema: &Schema) -> Result<LocalDesk<JsonSubject>, NoMemory>
    ensures subject { IfOk result (λ d. d.subject ≡ schema.now) }
    ensures begins { IfOk result (λ d. StandsFor subject_kind meaning_of d 0 empty_world []) }
{
    LocalDesk::new(alloc, JsonSubject::new(schema.copy(alloc)?))
}

/// Serves one connection over a desk of that schema whose history is empty.
fn pipe_over<S: Source, K: Sink>(
    alloc: Global,
    schema: &Schema,
    desk: &mut LocalDesk<JsonSubject>,
    source: &mut S,
    sink: &mut K,
) -> u8
    requires subject { desk.old.subject ≡ schema.now }
    requires begins { StandsFor subject_kind meaning_of desk.old 0 empty_world [] }
    ensures { Session schema.now (S.told source.old) (S.told source.new) (K.told sink.old) (K.told sink.new) result }
{
    let limits = Limits::standard();
    let driven = serve_counted(alloc, schema, limits, source, sink, desk);
    status_of(driven.end)
}

/// Serves one connection on a store of its own over a schema.
fn pipe_on<S: Source, K: Sink>(alloc: Global, schema: &Schema, source: &mut S, sink: &mut K) -> u8
    ensures { Pipes schema.now (S.told source.old) (S.told source.new) (K.told sink.old) (K.told sink.new) result }
{
    match own_desk(alloc, schema) {
        Ok(own) => {
            let mut desk = own;
            pipe_over(alloc, schema, &mut desk, source, sink)
        }
        Err(NoMemory) => 5,
    }
}

/// Serves one connection over the built-in schema.
fn pipe_notes<S: Source, K: Sink>(alloc: Global, source: &mut S, sink: &mut K) -> u8
    ensures { Pipes notes (S.told source.old) (S.told source.new) (K.told sink.old) (K.told sink.new) result }
{
    match Schema::notes(alloc) {
        Ok(schema) => pipe_on(alloc, &schema, source, sink),
        Err(NoMemory) => 5,
    }
}

/// Serves one connection over what a schema file gave.
fn pipe_read<S: Source, K: Sink>(
    alloc: Global,
    path: &str,
    read: SchemaRead,
    source: &mut S,
    sink: &mut K,
) -> u8
    ensures { PipesRead path.now read (S.told source.old) (S.told source.new) (K.told sink.old) (K.told sink.new) result }
{
    match read {
        SchemaRead::Good(schema) => pipe_on(alloc, &schema, source, sink),
        SchemaRead::Missing => refuse("missing ", path, sink),
        SchemaRead::TooLarge => refuse("schema too large", "", sink),
        SchemaRead::Fault { place, why } => refuse_schema(place.as_str(), why, sink),
        SchemaRead::Failed => 1,
        SchemaRead::NoMemory => 5,
    }
}

/// The command `pipe`, given the words behind the program's name: serves one connection from the source to the sink on a
/// store of its own, which begins empty. `pipe` alone serves the built-in type of notes, and `pipe PATH` the types of the schema
/// file of that path. Its answer is the exit status:
///
/// - 0: every message was answered, and the input ended or the last message closed the connection;
/// - 1: the source, the sink or the opener failed, and its count says so;
/// - 2: one line was written: `jsonapid: words` where the words are others, `jsonapid: missing PATH` where the opener has no such
///   file, `jsonapid: schema PLACE WHY` for its first fault, or `jsonapid: schema too large` where it has more than 1,048,576
///   bytes. Nothing was read from the source;
/// - 3: what followed the last message was refused (RFC 9112, section 2.2), and the connection closed;
/// - 4: the input ended inside a message;
/// - 5: want of memory.
///
/// The opener is asked for the path alone.
pub fn pipe_command<S: Source, K: Sink, O: Opener>(
    alloc: Global,
    words: &[Text],
    opener: &mut O,
    source: &mut S,
    sink: &mut K,
) -> u8
    ensures pipes { PipesBy O.Src.told words.now (ends (S.told source.old) (K.told sink.old) (O.told opener.old)) (ends (S.told source.new) (K.told sink.new) (O.told opener.new)) result }
    ensures unread { IsFalse (is_pipe words.now) → IsNone (path_of words.now) → source.new ≡ source.old }
    ensures unasked { IsNone (path_of words.now) → opener.new ≡ opener.old }
{
    if is_pipe(words) {
        return pipe_notes(alloc, source, sink);
    }
    let Some(path) = path_of(words) else {
        return refuse("words", "", sink);
    };
    let read = read_schema_file(alloc, path.as_str(), opener);
    pipe_read(alloc, path.as_str(), read, source, sink)
}
