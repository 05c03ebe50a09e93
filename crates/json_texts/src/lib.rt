//! Texts of JSON, put together piece by piece in a draft (RFC 8259). No value is made.
#![tactic(auto)]

mod drafts;
mod integers;
mod names;
mod plain;
mod strings;

pub use drafts::TextDraft;
pub use integers::add_int;
pub use names::{id_text, name_text};
pub use strings::{add_escaped, add_string};
