use crate::{Operation, Query};
use http_messages::Reply;
use ident_rules::List;
use resource_schema::Target;

/// The most operations of a list.
pub const OPERATION_LIMIT: usize = 1_000;

/// A request that reads (JSON:API 1.1, "Fetching Data").
#[derive(Drop)]
pub struct Fetch {
    /// What is read.
    pub target: Target,
    /// How it is shown.
    pub query: Query,
}

/// How a change that is done is answered.
#[derive(Clone, Copy, Debug, PartialEq, Eq)]
pub enum ReplyForm {
    /// 201 with the new resource (JSON:API 1.1, "Creating Resources").
    Created,
    /// 200 with the resource ("Updating Resources").
    Updated,
    /// 204 without content.
    Empty,
    /// 200 with a result for each operation, or 204 (Atomic Operations extension, "Processing Results").
    Results,
}

/// A request of the store.
#[derive(Drop)]
pub enum Task {
    /// Reads.
    Fetch(Fetch),
    /// Changes: all operations, at most `OPERATION_LIMIT`, or none where one is refused.
    Change {
        /// The operations in their order.
        operations: List<Operation>,
        /// How it is answered.
        form: ReplyForm,
    },
}

/// One request of a history, with the reply that it was given.
#[derive(Drop)]
pub struct Entry {
    /// The number of the one who asked.
    pub by: u32,
    /// What was asked.
    pub task: Task,
    /// The reply.
    pub reply: Reply,
}

/// What a message asks for.
#[derive(Drop)]
pub enum Plan {
    /// Nothing of the store: the message alone decides this reply.
    Fixed(Reply),
    /// A task of the store.
    Run(Task),
}
