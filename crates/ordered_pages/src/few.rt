//! What one node becomes.
use std::sync::Arc;

/// None, one or two nodes.
#[derive(Drop)]
pub(crate) enum Few<T> {
    /// No node is left.
    Gone,
    /// One node.
    One(Arc<T>),
    /// Two nodes, in order.
    Two(Arc<T>, Arc<T>),
}
