//! The core of a store: cells, the count of a history and the log of its last writing entries; trials of a task on a snapshot of it, and their
//! commits. For whatever legal history a core stands, after a commit that is done it stands for that history with its entry (of this project).
#![tactic(auto)]

mod attempts;
mod cores;
mod ends;
mod services;
mod settles;
mod tallies;
mod tries;

pub use attempts::{Attempt, REFUSAL_LIMIT};
pub use cores::{Core, Snapshot};
pub use ends::{CommitEnd, Setback, SettleEnd};
pub use services::Service;
pub use tallies::{ENTRY_LIMIT, Tally};
pub use tries::{RisingWrites, Trial, try_task};
