//! One page of rows, in the order of the ids or of sort keys (JSON:API 1.1, "Sorting" and "Pagination"; Cursor Pagination
//! profile). A page of a type in the order of the ids is a bounded scan: its rows are read, the one before and the one
//! after, and nothing else of the type.
#![tactic(auto)]

mod by_id;
mod edges;
mod flanks;
mod listed;
mod looks;
mod orders;
mod pages;
mod scans;
mod slices;

pub use pages::{Members, select_page};
