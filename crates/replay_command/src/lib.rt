//! The command `replay` over any source and sink: it reads a script, runs its steps over streams that share one history, and writes what
//! came of it (of this project).
#![tactic(auto)]

mod replays;

pub use replays::{is_replay, replay_command};
