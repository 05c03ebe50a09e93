//! The planner: what a message asks for, as a fixed reply or as a task of the store, by the definitions of request_model.
#![tactic(auto)]

mod changes;
mod fetches;
mod parameters;
mod planner;
mod replies;
mod tasks;

pub use planner::{LentTasks, RequestTasks};
