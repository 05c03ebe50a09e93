//! Laws of runs. Each is the contract of a function that does nothing.

ghost use Rattle.run_model.specs.Laws.{HistoryGrows, HistoryIsRebuilt, LastIsAnswered, OthersEntriesStay, OwnEntryJoins, OthersRefusalsStay, OthersStagesStay, RefusalsAreConflicts, RefusalsAreCounted, RunsAreLegal, RunsGrow, StageIsLast};

use history_model::Means;

/// What one more event makes of the history, of the stages and of the counts of refusals.
pub fn events_grow()
    ensures history { HistoryGrows }
    ensures stage { StageIsLast }
    ensures stages { OthersStagesStay }
    ensures refused { RefusalsAreCounted }
    ensures refusals { OthersRefusalsStay }
{}

/// What one more entry makes of the entries of one stream.
pub fn entries_grow()
    ensures own { OwnEntryJoins }
    ensures others { OthersEntriesStay }
{}

/// A run, and one more event that its stream may take, is a run.
pub fn runs_grow<S: Means>()
    ensures { (k : S.Kind) → RunsGrow (S.meaning k) }
{}

/// The history that a run from a valid world makes is legal.
pub fn runs_are_legal<S: Means>()
    ensures { (k : S.Kind) → RunsAreLegal (S.meaning k) }
{}

/// A refusal in a run is one that the definition of conflicts allows: a later entry wrote what the task may look at, or the snapshot is too old.
pub fn refusals_are_conflicts<S: Means>()
    ensures { (k : S.Kind) → RefusalsAreConflicts (S.meaning k) }
{}

/// The last entry of a list of answers is fit, and its reply is the answer in the world before it.
pub fn last_is_answered<S: Means>()
    ensures { (k : S.Kind) → LastIsAnswered (S.meaning k) }
{}

/// A history in which each stream's tasks are its first ones, in their order, is the one that its list of stream numbers tells.
pub fn history_is_rebuilt<S: Means>()
    ensures { (k : S.Kind) → HistoryIsRebuilt (S.meaning k) }
{}
