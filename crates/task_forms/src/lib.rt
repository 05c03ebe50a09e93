//! What requests ask of the store: tasks and their parts as plain data, the entries of a history, and the two traits
//! between connections and the store: who decides what a message asks for, and who answers tasks.
#![tactic(auto)]

mod desk;
mod operations;
mod planner;
mod queries;
mod tasks;

pub use desk::{Desk, DeskEnd};
pub use operations::{LID_LIMIT, Member, Named, Operation, Where, Who};
pub use planner::Planner;
pub use queries::{
    DEFAULT_PAGE_SIZE, PAGE_SIZE_LIMIT, PATH_LENGTH_LIMIT, PATH_LIMIT, Page, Path, Query,
    SORT_LIMIT, SortKey,
};
pub use resource_schema::Target;
pub use tasks::{Entry, Fetch, OPERATION_LIMIT, Plan, ReplyForm, Task};
