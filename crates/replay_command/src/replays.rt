//! Replays.
ghost use Rattle.std.specs.Prelude.{◌≡◌, ◌⊎◌, ◌<◌, ◌≤◌, ℕ, IfOk, IsFalse, length, slice_index};
ghost use Rattle.replay_runs.specs.declared.reports.TheConstants.{STREAM_LIMIT};
ghost use Rattle.replay_script.specs.Scripts.{script_of_text};
ghost use Rattle.replay_command.specs.Replays.{is_replay, IsReportOf, WritesReport, RunsOut, ReplaysText, Replays, ReplaysBy};

use command_lines::{FileBytes, read_whole, refuse, tell};
use commit_core::Core;
use history_model::LOG_WINDOW;
use ident_rules::{NoMemory, Text};
use ordered_pages::Pages;
use outer_ends::{Sink, Source};
use replay_runs::{Report, run_script};
use replay_script::{SCRIPT_LIMIT, Script, ScriptEnd, read_script, report_text, script_is_fit};
use request_tasks::LentTasks;
use std::alloc::Global;
use task_run::JsonSubject;

/// Whether the words are `replay` alone.
pub fn is_replay(words: &[Text]) -> bool
    ensures { result ≡ is_replay words.now }
{
    match words {
        [word] => word.as_str() == "replay",
        _ => false,
    }
}

/// What is reported of a script over a new store.
fn report_of(alloc: Global, script: &Script) -> Result<Report, NoMemory>
    requires few { length script.now.streams ≤ STREAM_LIMIT }
    requires within { (i : ℕ) → i < length script.now.steps → slice_index script.now.steps i < length script.now.streams }
    ensures { IfOk result (λ r. IsReportOf script.now r) }
{
    let subject = JsonSubject::new(script.schema.copy(alloc)?);
    let mut core = Core::new(alloc, subject, Pages::new(alloc), 0, LOG_WINDOW)?;
    let planner = LentTasks {
        schema: &script.schema,
    };
    let report = run_script(
        alloc,
        script.streams.as_slice(),
        script.steps.as_slice(),
        &planner,
        &mut core,
    )?;
    Ok(report)
}

/// Runs a script, and writes what is reported.
fn write_report<K: Sink>(alloc: Global, script: &Script, sink: &mut K) -> u8
    requires few { length script.now.streams ≤ STREAM_LIMIT }
    requires within { (i : ℕ) → i < length script.now.steps → slice_index script.now.steps i < length script.now.streams }
    ensures { WritesReport script.now (K.told sink.old) (K.told sink.new) result ⊎ RunsOut (K.told sink.old) (K.told sink.new) result }
{
    let Ok(report) = report_of(alloc, script) else {
        return 5;
    };
    let Ok(text) = report_text(alloc, &report) else {
        return 5;
    };
    tell(text.as_slice(), sink)
}

/// Reads a script and runs it.
fn replay_text<K: Sink>(alloc: Global, bytes: &[u8], sink: &mut K) -> u8
    ensures { ReplaysText (script_of_text bytes.now) (K.told sink.old) (K.told sink.new) result ⊎ RunsOut (K.told sink.old) (K.told sink.new) result }
{
    script_is_fit();
    match read_script(alloc, bytes) {
        Ok(script) => write_report(alloc, &script, sink),
        Err(ScriptEnd::Fault(place)) => refuse("script ", place.as_str(), sink),
        Err(ScriptEnd::NoMemory) => 5,
    }
}

/// Runs the script that a source gave.
fn replay_read<K: Sink>(alloc: Global, read: FileBytes, sink: &mut K) -> u8
    ensures { Replays read (K.told sink.old) (K.told sink.new) result }
{
    match read {
        FileBytes::Whole(bytes) => replay_text(alloc, &bytes, sink),
        FileBytes::TooLarge => refuse("script ", "size", sink),
        FileBytes::Failed => 1,
        FileBytes::NoMemory => 5,
    }
}

/// The command `replay`, given the words behind the program's name, which is the one word `replay`: reads a script from the source, takes
/// its steps over streams that share one new store, then steps each stream in turn until it has ended, and writes what is reported: how each
/// stream ended, the stream of each entry of the history in order, the refused commits of each stream, and what each was sent. Its answer is
/// the exit status:
///
/// - 0: the report was written. It is that of a run: its history is legal, each stream was sent what its bytes are to be sent by its own
///   entries, and each refusal was a conflict or an age by its trial's reads;
/// - 1: the source or the sink failed, and its count says so;
/// - 2: one line was written: `jsonapid: words` where the words are others, or `jsonapid: script PLACE` for the script's first fault;
/// - 5: want of memory; nothing was written.
pub fn replay_command<S: Source, K: Sink>(
    alloc: Global,
    words: &[Text],
    source: &mut S,
    sink: &mut K,
) -> u8
    ensures replays { ReplaysBy words.now (S.told source.old) (S.told source.new) (K.told sink.old) (K.told sink.new) result }
    ensures unread { IsFalse (is_replay words.now) → source.new ≡ source.old }
{
    if !is_replay(words) {
        return refuse("words", "", sink);
    }
    let read = read_whole(alloc, SCRIPT_LIMIT, source);
    replay_read(alloc, read, sink)
}
