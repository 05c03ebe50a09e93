//! The rows that asked paths lead to from some resources (JSON:API 1.1, "Inclusion of Related Resources"), by a work list:
//! each step goes from the keys that the one before reached, each key once. A row that no path reaches is not looked at.
#![tactic(auto)]

mod key_sets;
mod links;
mod rows;
mod steps;
mod walks;

pub use walks::walk;
