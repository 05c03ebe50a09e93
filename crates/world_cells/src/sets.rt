use crate::{Cell, CellKey, Span};
use ident_rules::List;

/// A part of a span that was looked through, from one of its ends to the first cell that was found there.
#[derive(Drop)]
pub struct Part {
    /// The span.
    pub span: Span,
    /// The key of the cell that was found; where there is none, the whole span was looked through.
    pub found: Option<CellKey>,
    /// Whether it was looked through from the top down.
    pub from_top: bool,
}

/// The cell keys that were looked at.
#[derive(Drop)]
pub struct ReadSet {
    /// Keys that were looked at one by one.
    pub keys: List<CellKey>,
    /// Parts of spans.
    pub parts: List<Part>,
}

/// One write: the cell that stands at a key from then on, or none where it is removed.
#[derive(Drop)]
pub struct Written {
    /// Where.
    pub key: CellKey,
    /// What stands there.
    pub cell: Option<Cell>,
}

/// Writes in ascending order of their keys.
#[derive(Drop)]
pub struct WriteSet {
    /// The writes.
    pub cells: List<Written>,
}

/// Cell keys in ascending order.
#[derive(Drop)]
pub struct KeySet {
    /// The keys.
    pub keys: List<CellKey>,
}
