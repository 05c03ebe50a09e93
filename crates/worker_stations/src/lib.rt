//! Places at which workers serve: each worker takes its pass out of its station and puts it back with its end; then all passes are
//! joined into one (of this project).
#![tactic(auto)]

mod joins;
mod stations;

pub use joins::{Joining, join_all, serve_all};
pub use stations::Station;
