//! Schema files: the types of a server, read from a JSON value, or the first fault.
#![tactic(auto)]

mod faults;
mod fields;
mod kinds;
mod names;
mod parts;
mod words;

pub use faults::SchemaEnd;
pub use kinds::read_schema;
pub use words::word_of;
