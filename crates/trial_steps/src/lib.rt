//! One step of a trial over a recorder: what it looks at, and what it says of every world that may stand behind the view.
//!
//! A trial answers by worlds that it does not know whole: all that agree with the view on what was read. Each of its steps
//! says what is so in each of them ([`Sees`](../specs/Steps.antt)), and which keys it read; laws compose steps.
#![tactic(auto)]

mod looks;

pub use looks::{find_row, has_row, next_number};
