//! The command `serve` over any opener, listeners, gates and sink: workers serve the connections of their listeners on one store, whose
//! history they share (of this project).
#![tactic(auto)]

mod serves;

pub use serves::serve_command;
