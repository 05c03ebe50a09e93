//! Sessions: the messages of one connection, read, answered in order by a planner and a desk, and ended (RFC 9112,
//! section 9).
#![tactic(auto)]

mod drives;
mod laws;
mod limits;
mod messages;
mod sessions;

pub use drives::{Driven, drive, drive_counted};
pub use http_messages::SessionEnd;
pub use laws::sessions_go_on;
pub use limits::Limits;
pub use sessions::{Next, Pending, Session};
