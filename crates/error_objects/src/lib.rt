//! Refusals of requests: the codes with what they say, what is to blame, and the error documents that are sent for
//! them (JSON:API 1.1, "Errors").
#![tactic(auto)]

mod codes;
mod refusals;
mod replies;

pub use codes::Code;
pub use refusals::{Blame, Read, Refusal};
pub use replies::error_reply;
