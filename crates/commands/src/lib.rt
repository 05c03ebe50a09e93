//! The commands of jsonapid over any source, sink and opener: what the program does, without the ends of the system.
//!
//! `jsonapid` calls `command` over standard input, standard output and files, and `conformance` over ends in memory.
#![tactic(auto)]

mod connections;
mod laws;
mod notices;
mod pipes;
mod program;

pub use connections::serve_connection;
pub use laws::{output_is_one, workload_is_one};
pub use pipes::pipe_command;
pub use program::command;
