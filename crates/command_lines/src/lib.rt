//! What every command of jsonapid does: it reads files whole, tells a notice, and refuses with one line.
#![tactic(auto)]

mod files;
mod lines;
mod schemas;

pub use files::{FileBytes, read_whole};
pub use lines::{refuse, refuse_schema, tell};
pub use schemas::{SCHEMA_FILE_LIMIT, SchemaRead, read_schema_file};
