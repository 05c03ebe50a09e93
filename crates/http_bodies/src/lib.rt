//! Reads the bodies of requests from any source, in any pieces (RFC 9112, sections 6 and 7).
#![tactic(auto)]

mod bodies;
mod chunks;
mod edges;
mod lines;
mod parts;
mod trailers;

pub use bodies::{BodyEnd, take_body};
