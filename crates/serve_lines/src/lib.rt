//! The words of the command `serve`, and the line that it ends with (of this project).
#![tactic(auto)]

mod served;
mod words;

pub use served::{Served, tell_served};
pub use words::{ServeWords, WORKER_LIMIT, serve_address, serve_path, serve_words};
