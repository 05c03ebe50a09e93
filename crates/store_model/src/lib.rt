//! What the store means, as definitions: valid worlds, operations and lists of them, pages, included rows, documents,
//! answers, and what a task may look at. The code here is laws alone: each is the contract of a function that does nothing.
#![tactic(auto)]

mod laws;
mod pages;

pub use laws::{
    documents_are_fully_linked, included_is_one, included_is_reached, lists_are_all_or_nothing,
    page_is_one, pages_are_exact, refusals_are_sourced, replies_are_plain, rows_are_the_worlds,
    sorted_is_one, sorting_is_exact, store_is_lawful,
};
pub use pages::Selected;
