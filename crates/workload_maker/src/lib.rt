//! The requests of a workload, made from a number: who asks for what is drawn, and the same seed makes the same requests (of this project).
#![tactic(auto)]

mod bodies;
mod draws;
mod requests;
mod texts;

pub use draws::Draws;
pub use requests::{PEOPLE, make_request};
