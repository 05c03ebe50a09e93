//! Workers on one store: each serves the connections of its listener over a desk of its own pass; then all passes are joined, and the store
//! is closed (of this project).
#![tactic(auto)]

mod counts;
mod passes;
mod stores;
mod workers;

pub use counts::{all_by_quota, served_by};
pub use passes::give_passes;
pub use stores::serve_store;
pub use workers::Workers;
