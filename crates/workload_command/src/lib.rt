//! The command `workload` over any sink: it makes the requests of a seed, serves them as one connection on a store of its own, and tells what
//! was counted (of this project).
#![tactic(auto)]

mod blog;
mod counts;
mod inputs;
mod runs;
mod tallies;
mod words;
mod workloads;

pub use words::{REQUEST_LIMIT, is_workload};
pub use workloads::workload_command;
