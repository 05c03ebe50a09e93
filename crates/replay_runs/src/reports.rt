//! What is reported of a list of steps.
ghost use Rattle.std.specs.Prelude.{◌≡◌, ◌<◌, ◌≤◌, ℕ, List, [], IfOk, Some, slice_get, slice_index, length, map, unwrap_or};
ghost use Rattle.http_messages.specs.declared.ends.SessionEnd.TheVariants as session_end;
ghost use Rattle.history_model.specs.declared.checks.TheConstants.{LOG_WINDOW};
ghost use Rattle.task_forms.specs.declared.tasks.Task.{Task as StoreTask};
ghost use Rattle.commit_core.specs.Standing.{StandsFor, meaning_in};
ghost use Rattle.session_engine.specs.Plans.{plans_of};
ghost use Rattle.replay_runs.specs.Streams.{IsNew};
ghost use Rattle.replay_runs.specs.Running.{Reports};

use crate::runs::{end_all, step_all};
use crate::streams::Stream;
use commit_core::Core;
use http_messages::SessionEnd;
use http_model::entries_are_tasks;
use ident_rules::{Bytes, NoMemory};
use outer_ends::Work;
use run_model::history_is_rebuilt;
use std::alloc::Global;
use task_forms::{Entry, Planner, Task};
use trial_subject::Subject;

/// The most streams of a run.
pub const STREAM_LIMIT: usize = 64;

/// What is reported of a run.
#[derive(Drop)]
pub struct Report {
    /// How each stream ended.
    pub ends: Vec<SessionEnd>,
    /// The stream of each entry in order.
    pub history: Vec<u32>,
    /// The refused commits of each stream.
    pub refused: Vec<u64>,
    /// What each stream was sent.
    pub replies: Vec<Bytes>,
}

/// A stream for each of these inputs, before its first step.
fn make_streams(alloc: Global, inputs: &[Bytes]) -> Result<Vec<Stream>, NoMemory>
    ensures size { IfOk result (λ v. length v.items ≡ length inputs.now) }
    ensures new { IfOk result (λ v. (k : ℕ) (bytes : List ℕ) (s : Stream) → slice_get inputs.now k ≡ Some bytes → slice_get v.items k ≡ Some s → IsNew bytes s) }
{
    let mut streams = Vec::new(alloc);
    'making: for bytes in inputs {
        let stream = Stream::new(alloc, bytes.as_slice())?;
        streams.push(stream)?;
    }
    Ok(streams)
}

/// What is told of streams that have ended.
fn tell(alloc: Global, streams: &[Stream], history: Vec<u32>) -> Result<Report, NoMemory>
    ensures ends { IfOk result (λ r. r.ends.items ≡ map (λ s. unwrap_or s.end session_end.NoMemory) streams.now) }
    ensures history { IfOk result (λ r. r.history.items ≡ history.items) }
    ensures refused { IfOk result (λ r. r.refused.items ≡ map (λ s. s.refused) streams.now) }
    ensures replies { IfOk result (λ r. r.replies.items ≡ map (λ s. s.line.sink.written) streams.now) }
{
    let mut ends = Vec::new(alloc);
    let mut refused = Vec::new(alloc);
    let mut replies = Vec::new(alloc);
    'telling: for stream in streams {
        ends.push(stream.end.unwrap_or(SessionEnd::NoMemory))?;
        refused.push(stream.refused)?;
        replies.push(Bytes::from_slice(alloc, stream.line.sink.written())?)?;
    }
    Ok(Report {
        ends,
        history,
        refused,
        replies,
    })
}

/// Takes these steps over streams of these bytes and a new core, and then steps of each stream in turn until it has
/// ended. What is reported is a run: its history is legal and is the one that the core then stands for, each stream was sent what its
/// bytes are to be sent by its own entries, and each refusal is a conflict or an age by its trial's reads. Its one error is want of memory.
pub fn run_script<S: Subject + Drop, P: Planner>(
    alloc: Global,
    inputs: &[Bytes],
    steps: &[u32],
    planner: &P,
    core: &mut Core<S>,
) -> Result<Report, NoMemory>
    requires fit { (t : StoreTask) → P.fit planner.now t → (S.meaning (S.kind core.old.subject)).fit t }
    requires few { length inputs.now ≤ STREAM_LIMIT }
    requires within { (i : ℕ) → i < length steps.now → slice_index steps.now i < length inputs.now }
    requires window { core.old.tally.log.window ≡ LOG_WINDOW }
    requires new { StandsFor S.kind S.meaning core.old 0 (meaning_in S.kind S.meaning core.old).empty [] }
    ensures subject { core.new.subject ≡ core.old.subject }
    ensures reported { IfOk result (λ r. Reports S.kind S.meaning (plans_of (P.planned planner.now)) LOG_WINDOW core.new inputs.now steps.now r) }
{
    entries_are_tasks::<Task, Entry>();
    history_is_rebuilt::<S>();
    let mut streams = make_streams(alloc, inputs)?;
    let mut history = Vec::new(alloc);
    let mut work = Work::new();
    step_all(
        alloc,
        planner,
        core,
        &mut streams,
        &mut history,
        steps,
        &mut work,
    )?;
    let count = inputs.len() as u32;
    end_all(
        alloc,
        planner,
        core,
        &mut streams,
        &mut history,
        count,
        &mut work,
    )?;
    let report = tell(alloc, streams.as_slice(), history)?;
    Ok(report)
}
