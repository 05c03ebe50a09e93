//! What a history of requests is: trials and what they promise, legal histories, what their entries write, conflicts,
//! and what a store holds that stands for a history. These are definitions and laws alone.
#![tactic(auto)]

mod checks;
mod laws;
mod means;

pub use checks::{Check, LOG_WINDOW};
pub use laws::{
    aged_is_one, commit_extends_history, conflict_is_one, log_tells_history,
    settle_extends_history, trial_stays_right,
};
pub use means::Means;
