//! One operation of a store over a recorder: what it refuses, what it changes, and what it reads.
#![tactic(auto)]

mod changes;
mod creates;
mod finds;
mod linkages;
mod links;
mod members;
mod places;
mod references;
mod removes;
mod steps;
mod updates;

pub use changes::change;
pub use steps::Step;
