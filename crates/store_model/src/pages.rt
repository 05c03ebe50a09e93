use ident_rules::List;
use world_cells::Row;

/// One page of rows (Cursor Pagination profile).
#[derive(Drop)]
pub struct Selected {
    /// The rows that it shows, in their order.
    pub rows: List<Row>,
    /// Whether a row stands before the first of them; false without a row.
    pub before: bool,
    /// Whether a row stands behind the last of them; false without a row.
    pub after: bool,
    /// Whether both cursors were given and more rows stand between them than the page shows ("Range Pagination").
    pub truncated: bool,
}
