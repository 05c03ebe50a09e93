//! Tests of one history, where memory is ample: commits of old trials, the end of the counter, snapshots that are kept, desks whose trials are
//! refused, and threads that work on one store. They stand in one crate on top, so that none of those crates is proved twice.
#![tactic(auto)]

mod cores;
mod desks;
#[cfg(test)]
mod gates;
mod holds;
#[cfg(test)]
mod kept;
mod meddlers;
#[cfg(test)]
mod refused;
#[cfg(test)]
mod threads;
#[cfg(test)]
mod worn;

pub use cores::{SnapshotReads, end_of_old_trial, reads_of_snapshot, trial_of};
pub use desks::{Meddled, serve_alone, serve_meddled, serve_shared};
pub use holds::{FlagListener, FlagSink, Hold};
pub use meddlers::Meddler;
