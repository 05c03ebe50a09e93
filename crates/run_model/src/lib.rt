//! Runs of steps: several streams take turns at one history, one event a step; what a stream may do, what a run is, and the history that a list
//! of stream numbers tells. These are definitions and laws alone (of this project).
#![tactic(auto)]

mod laws;

pub use laws::{
    entries_grow, events_grow, history_is_rebuilt, last_is_answered, refusals_are_conflicts,
    runs_are_legal, runs_grow,
};
