use crate::Attempt;
use task_forms::Entry;

/// Why a commit was refused.
#[derive(Clone, Copy, Debug, PartialEq, Eq)]
pub enum Setback {
    /// The entry of this number, the first after the trial's snapshot to do so, wrote what the trial read.
    Conflict(u64),
    /// The snapshot is older than what the log remembers: the entry of this number, after the snapshot, was dropped from it.
    Aged(u64),
}

/// What a commit came to.
#[derive(Drop)]
pub enum CommitEnd {
    /// The entry joined the history.
    Done(Entry),
    /// The commit was refused; the attempt counts it.
    Stale(Attempt, Setback),
    /// Want of memory; nothing has changed.
    NoMemory(Attempt),
    /// The history takes no further entry.
    Worn(Attempt),
}

/// What a settling came to.
#[derive(Drop)]
pub enum SettleEnd {
    /// The entry joined the history.
    Done(Entry),
    /// Want of memory; nothing has changed.
    NoMemory(Attempt),
    /// The history takes no further entry.
    Worn(Attempt),
}
