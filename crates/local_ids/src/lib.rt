//! The local ids of one request: for each type and each text, the id that stands for it (JSON:API 1.1, "Resource
//! Identifier Objects"; Atomic Operations extension). Contracts see them as the definitions of the store do.
#![tactic(auto)]

mod bound;

pub use bound::{Bind, LocalIds};
