//! The texts of URIs: a request target as path and query, the segments of paths, and the links that documents have.
//! What each means is defined in specs/ here and in those of request_model.
#![tactic(auto)]

mod links;
mod segments;
mod targets;

pub use links::{related_link, relationship_link, resource_link, with_query};
pub use segments::{decode_segment, read_segment};
pub use targets::split_target;
