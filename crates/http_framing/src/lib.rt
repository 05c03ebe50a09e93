//! Reads the heads of requests from any source, in any pieces, and judges them (RFC 9110 and RFC 9112).
#![tactic(auto)]

mod buffer;
mod fields;
mod fronts;
mod heads;
mod parts;
mod rules;
mod sections;
mod targets;
mod texts;

pub use buffer::{Buffer, Fill};
pub use heads::{HeadEnd, take_head};
pub use http_messages::{Framing, HeadFault};
pub use rules::{closes, expects_continue, is_head, judge_head};
pub use sections::Section;
