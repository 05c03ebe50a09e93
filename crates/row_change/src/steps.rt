use resource_schema::Schema;
use std::alloc::Global;

/// What each step of an operation is given.
#[derive(Clone, Copy)]
pub struct Step<'a> {
    /// Where what is answered takes its memory.
    pub alloc: Global,
    /// The types of the store.
    pub schema: &'a Schema,
    /// The pointer of the operation in the request; that of a refusal stands under it.
    pub pointer: &'a str,
}
