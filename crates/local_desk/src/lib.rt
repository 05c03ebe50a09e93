//! A desk on a core of its own: each task is tried on the core as it is and committed (of this project).
#![tactic(auto)]

mod alone;
mod desk;

pub use alone::answer_alone;
pub use desk::LocalDesk;
