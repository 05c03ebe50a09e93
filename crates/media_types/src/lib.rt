//! Media types, and content negotiation by them (RFC 9110, sections 8.3 and 12.5.1; JSON:API 1.1, "Content Negotiation").
//!
//! `content_ok` judges what a request says of its content, `accept_ok` what it accepts. Both answer exactly what the
//! definitions of `request_model` say. Their one error is want of memory; a request without the fields takes none.
#![tactic(auto)]

mod accepting;
mod contents;
mod fields;
mod media;
mod params;
mod pieces;
mod tokens;
mod types;

pub use accepting::accept_ok;
pub use contents::content_ok;
pub use media::read_media;
pub use request_model::{ContentVerdict, Media, Need, Param};
