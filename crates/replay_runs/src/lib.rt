//! Lists of steps over streams of requests that share one core: the runs that `replay` reports (of this project).
#![tactic(auto)]

mod lines;
mod reports;
mod runs;
mod streams;

pub use lines::Line;
pub use reports::{Report, STREAM_LIMIT, run_script};
pub use streams::Stream;
