//! Stations whose listeners wait at one socket of the system (of this project).
#![tactic(auto)]

mod stations;

pub use stations::{SocketStation, stations_at};
