//! What documents, schema files and cursors share: the values of attributes as JSON (RFC 8259, section 3; the forms are
//! of this project), read and written, and the pointers of members (RFC 6901).
#![tactic(auto)]

mod pointers;
mod reading;
mod writing;

pub use pointers::{item_member_pointer, item_pointer, member_pointer};
pub use reading::read_value;
pub use writing::write_value;
