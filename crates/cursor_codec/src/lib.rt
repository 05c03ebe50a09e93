//! Cursors of pages, both ways: the text of a place in an order, and the place of a text (Cursor Pagination profile,
//! "Cursors"; what stands in them is of this project, and defined in request_model).
#![tactic(auto)]

mod places;
mod reading;
mod spelling;
mod writing;

pub use reading::read_cursor;
pub use writing::write_cursor;
