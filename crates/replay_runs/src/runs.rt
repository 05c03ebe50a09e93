//! Lists of steps over streams.
ghost use Rattle.std.specs.Prelude.{◌≡◌, ◌<◌, ℕ, [], ◌∷◌, IsSome, None, Some, OnOk, ◌≢◌, slice_get, slice_index, length};
ghost use Rattle.task_forms.specs.declared.tasks.Task.{Task as StoreTask};
ghost use Rattle.session_engine.specs.Plans.{plans_of};
ghost use Rattle.replay_runs.specs.Streams.{MayGo};
ghost use Rattle.replay_runs.specs.Running.{RunsSome, RunsOn, RunsOut, RunsAllOut, left_at};

use crate::streams::Stream;
use commit_core::Core;
use ident_rules::NoMemory;
use outer_ends::Work;
use run_model::{entries_grow, events_grow, runs_grow};
use std::alloc::Global;
use task_forms::Planner;
use trial_subject::Subject;

/// One step of the stream of a number.
fn step_at<S: Subject + Drop, P: Planner>(
    alloc: Global,
    planner: &P,
    core: &mut Core<S>,
    streams: &mut Vec<Stream>,
    history: &mut Vec<u32>,
    k: u32,
    work: &mut Work,
) -> Result<(), NoMemory>
    requires fit { (t : StoreTask) → P.fit planner.now t → (S.meaning (S.kind core.old.subject)).fit t }
    requires within { k < length streams.old.items }
    requires may { (s : Stream) → slice_get streams.old.items k ≡ Some s → MayGo (S.meaning (S.kind core.old.subject)) core.old.tally.count s.end s.stepper s.line }
    ensures subject { core.new.subject ≡ core.old.subject }
    ensures window { core.new.tally.log.window ≡ core.old.tally.log.window }
    ensures size { length streams.new.items ≡ length streams.old.items }
    ensures falls { OnOk result ((s : Stream) → slice_get streams.old.items k ≡ Some s → s.end ≡ None → left_at streams.new.items k < left_at streams.old.items k) }
    ensures others { OnOk result ((j : ℕ) → j ≢ k → slice_get streams.new.items j ≡ slice_get streams.old.items j) }
    ensures steps { OnOk result (RunsOn S.kind S.meaning (plans_of (P.planned planner.now)) core.old core.new streams.old.items streams.new.items history.old.items history.new.items (k ∷ [])) }
{
    events_grow();
    entries_grow();
    runs_grow::<S>();
    let joined = streams[k as usize].step(alloc, planner, core, k, work)?;
    if joined {
        history.push(k)?;
        return Ok(());
    }
    Ok(())
}

/// Steps of the stream of a number until it has ended.
fn end_one<S: Subject + Drop, P: Planner>(
    alloc: Global,
    planner: &P,
    core: &mut Core<S>,
    streams: &mut Vec<Stream>,
    history: &mut Vec<u32>,
    k: u32,
    work: &mut Work,
) -> Result<(), NoMemory>
    requires fit { (t : StoreTask) → P.fit planner.now t → (S.meaning (S.kind core.old.subject)).fit t }
    requires within { k < length streams.old.items }
    requires runs { RunsSome S.kind S.meaning (plans_of (P.planned planner.now)) core.old streams.old.items history.old.items }
    ensures subject { core.new.subject ≡ core.old.subject }
    ensures window { core.new.tally.log.window ≡ core.old.tally.log.window }
    ensures size { length streams.new.items ≡ length streams.old.items }
    ensures others { OnOk result ((j : ℕ) → j ≢ k → slice_get streams.new.items j ≡ slice_get streams.old.items j) }
    ensures ended { OnOk result ((s : Stream) → slice_get streams.new.items k ≡ Some s → IsSome s.end) }
    ensures steps { OnOk result (RunsOut S.kind S.meaning (plans_of (P.planned planner.now)) core.old core.new streams.old.items streams.new.items history.old.items history.new.items k) }
{
    'ending: while streams[k as usize].end.is_none() {
        step_at(alloc, planner, core, streams, history, k, work)?;
    }
    Ok(())
}

/// Steps of the streams of these numbers.
pub fn step_all<S: Subject + Drop, P: Planner>(
    alloc: Global,
    planner: &P,
    core: &mut Core<S>,
    streams: &mut Vec<Stream>,
    history: &mut Vec<u32>,
    steps: &[u32],
    work: &mut Work,
) -> Result<(), NoMemory>
    requires fit { (t : StoreTask) → P.fit planner.now t → (S.meaning (S.kind core.old.subject)).fit t }
    requires within { (i : ℕ) → i < length steps.now → slice_index steps.now i < length streams.old.items }
    requires runs { RunsSome S.kind S.meaning (plans_of (P.planned planner.now)) core.old streams.old.items history.old.items }
    ensures subject { core.new.subject ≡ core.old.subject }
    ensures window { core.new.tally.log.window ≡ core.old.tally.log.window }
    ensures size { length streams.new.items ≡ length streams.old.items }
    ensures steps { OnOk result (RunsOn S.kind S.meaning (plans_of (P.planned planner.now)) core.old core.new streams.old.items streams.new.items history.old.items history.new.items steps.now) }
{
    'stepping: for step in steps {
        step_at(alloc, planner, core, streams, history, *step, work)?;
    }
    Ok(())
}

/// Steps of each stream in turn until it has ended.
pub fn end_all<S: Subject + Drop, P: Planner>(
    alloc: Global,
    planner: &P,
    core: &mut Core<S>,
    streams: &mut Vec<Stream>,
    history: &mut Vec<u32>,
    count: u32,
    work: &mut Work,
) -> Result<(), NoMemory>
    requires fit { (t : StoreTask) → P.fit planner.now t → (S.meaning (S.kind core.old.subject)).fit t }
    requires count { count ≡ length streams.old.items }
    requires runs { RunsSome S.kind S.meaning (plans_of (P.planned planner.now)) core.old streams.old.items history.old.items }
    ensures subject { core.new.subject ≡ core.old.subject }
    ensures window { core.new.tally.log.window ≡ core.old.tally.log.window }
    ensures size { length streams.new.items ≡ length streams.old.items }
    ensures ended { OnOk result ((j : ℕ) (s : Stream) → slice_get streams.new.items j ≡ Some s → IsSome s.end) }
    ensures steps { OnOk result (RunsAllOut S.kind S.meaning (plans_of (P.planned planner.now)) core.old core.new streams.old.items streams.new.items history.old.items history.new.items count) }
{
    'finishing: for k in 0..count {
        end_one(alloc, planner, core, streams, history, k, work)?;
    }
    Ok(())
}
