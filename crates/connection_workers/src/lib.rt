//! Workers: each accepts connections, one after another, serves each by a session over its desk, and gives it back.
#![tactic(auto)]

mod workers;

pub use workers::{Cause, QUOTA_LIMIT, WorkerEnd, serve_worker};
