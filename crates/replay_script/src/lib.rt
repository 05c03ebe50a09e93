//! Scripts of replays, read from a JSON text, and the text that reports their run (of this project; RFC 8259, RFC 4648).
#![tactic(auto)]

mod arrays;
mod places;
mod reports;
mod scripts;

pub use reports::report_text;
pub use scripts::{SCRIPT_LIMIT, STEP_LIMIT, Script, ScriptEnd, read_script, script_is_fit};
