//! A lock over a value that stands for a history, and passes that know how much of it they have seen.
//!
//! Whoever holds the lock has the value, and may leave one more entry. The history is nowhere stored: contracts speak of it. A pass
//! has the entries that it has seen and those that are its own; what it finds when it enters begins with what it has seen, and the
//! entries there with its numbers are exactly its own. Waiting is `enter` alone. It stands on the kit's `atomic_table`.
#![tactic(auto)]

mod joins;
mod lock;
mod making;
mod passes;
mod rule;

pub use lock::HistoryLock;
pub use passes::{Held, Pass};
pub use rule::{Joined, Keeps, Knows, Start};
