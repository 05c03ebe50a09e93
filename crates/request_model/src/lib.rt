//! What a request means, as definitions that compute: content negotiation, targets and methods, queries, cursors, schema
//! files, documents, lists of operations, and the plan of a message. specs/ has them, each with the standard that it is
//! from; `laws` says what holds of them. There is no other code: the crates above meet these definitions.
#![tactic(auto)]

mod forms;
mod laws;

pub use forms::{Act, Aim, Asked, ContentVerdict, Media, Need, Op, Param, Parameter, Quoting};
pub use laws::{
    cursor_has_one_spelling, cursor_is_read_back, found_target_is_known, planned_task_is_fit,
    read_schema_keeps_rules, refusal_names_its_source,
};
