//! A desk of one pass on the history that connections share: a task is tried with the lock free, and committed; after three refusals it is
//! settled under the lock (of this project).
#![tactic(auto)]

mod desks;
mod gates;
mod owners;
mod tries;

pub use desks::SharedDesk;
pub use owners::Owner;
