//! Documents of the Atomic Operations extension: lists of operations, read to what a store is asked, or the first refusal
//! (Atomic Operations extension, "Document Structure" and "Operation Objects").
#![tactic(auto)]

mod acts;
mod aims;
mod hrefs;
mod lists;
mod operations;
mod places;
mod refs;
mod refusals;
mod words;

pub use lists::read_operations;
