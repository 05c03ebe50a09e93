//! Steps of one task over a core: a snapshot, a try, a commit, and the settling of a task that was refused three times; each is one event of a run
//! (of this project).
#![tactic(auto)]

mod steppers;

pub use steppers::{StepEnd, Stepper};
