//! Writing one row over a recorder, and the ways back to it from what it links to.
#![tactic(auto)]

mod writes;

pub use writes::{ids_at, put_row, remove_row};
