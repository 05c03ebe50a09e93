//! The log of the last entries that changed a cell, by which a commit is judged.
//!
//! A [`CommitLog`] keeps the numbers and keys of the last `window` such entries, and the number of the one that it dropped
//! last. A trial's reads are asked of [`LastWriters`] first; kept entries are looked at only where these leave a doubt, and
//! [`Kept::entry`] is the one way to them, which counts.
#![tactic(auto)]

mod crossing;
mod kept;
mod last_writers;
mod log;
mod reads;

pub use kept::{Kept, KeptEntry};
pub use last_writers::LastWriters;
pub use log::CommitLog;
