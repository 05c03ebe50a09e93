//! Numbers among the words behind the program's name (of this project).
#![tactic(auto)]

mod numbers;

pub use numbers::{DIGIT_LIMIT, decimal_word};
