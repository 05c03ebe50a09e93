//! Laws of histories, for every lawful meaning of tasks. Each is the contract of a function that does nothing.

ghost use Rattle.history_model.specs.Laws.{AgedIsOne, LogTellsHistory, ConflictIsOne, TrialStaysRight, CommitExtendsHistory, SettleExtendsHistory};

use crate::Means;

/// What a log of the last writing entries answers is the history's first conflict with what was read, or that the
/// snapshot is too old to know.
pub fn log_tells_history<S: Means>()
    ensures { (k : S.Kind) → LogTellsHistory (S.meaning k) }
{}

/// A history has one conflict with a read set after a number, or none.
pub fn conflict_is_one<S: Means>()
    ensures { (k : S.Kind) → ConflictIsOne (S.meaning k) }
{}

/// What is too old for a log of some length is one entry, or none.
pub fn aged_is_one<S: Means>()
    ensures { (k : S.Kind) → AgedIsOne (S.meaning k) }
{}

/// A trial on a snapshot whose reads no later entry wrote is right in the last world of the history too.
pub fn trial_stays_right<S: Means>()
    ensures { (k : S.Kind) → TrialStaysRight (S.meaning k) }
{}

/// A commit whose reads no later entry wrote leads from a legal history to the legal history with its entry.
pub fn commit_extends_history<S: Means>()
    ensures { (k : S.Kind) → CommitExtendsHistory (S.meaning k) }
{}

/// A trial on the store as it is leads from a legal history to the legal history with its entry.
pub fn settle_extends_history<S: Means>()
    ensures { (k : S.Kind) → SettleExtendsHistory (S.meaning k) }
{}
