//! What runs requests: what tasks mean to a value, and the trial of a task on a recorder over any view of cells (of this project).
#![tactic(auto)]

mod subjects;

pub use subjects::{Answers, Subject};
