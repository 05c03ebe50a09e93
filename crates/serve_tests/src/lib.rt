//! Tests of workers on one store, where memory is ample: the command `serve` over connections in memory, and passes that take turns.
//! They stand in one crate on top, so that none of those crates is proved twice.
#![tactic(auto)]

#[cfg(test)]
mod passes;
mod places;
#[cfg(test)]
mod serves;
mod turns;

pub use places::{Client, MemoryStation, listener, stations, was_sent, were_served};
pub use turns::count_of_turns;
