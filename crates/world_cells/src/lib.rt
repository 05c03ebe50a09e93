//! The cells of a store: rows, the way back of each link, and the next id of each type; spans of their keys; and what
//! a request reads and writes of them. All are plain data, whose fields contracts and definitions name.
#![tactic(auto)]

mod cells;
mod keys;
mod rows;
mod same;
mod sets;
mod slots;
mod spans;

pub use cells::{Cell, LAST_NEXT_ID};
pub use keys::CellKey;
pub use rows::{LINK_LIMIT, Link, Row};
pub use same::{same_cell, same_link, same_row};
pub use sets::{KeySet, Part, ReadSet, WriteSet, Written};
pub use slots::{GROUPS, KIND_GROUPS, SLOTS};
pub use spans::{Edge, Span};
