/// How many writing entries the stores of the program remember.
pub const LOG_WINDOW: usize = 1_024;

/// What a log of the last entries says of the reads of a trial.
#[derive(Clone, Copy, Debug, PartialEq, Eq)]
pub enum Check {
    /// No entry after the trial's snapshot wrote what it read.
    Clear,
    /// The entry of this number, the first after the snapshot to do so, wrote what the trial read.
    Conflict(u64),
    /// The snapshot is older than what the log remembers: the entry of this number, after the snapshot, was dropped from it.
    Aged(u64),
}
