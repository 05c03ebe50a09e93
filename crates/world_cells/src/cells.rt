use crate::Row;

/// The greatest next id of a type, 2^63 - 1: from then on there is none.
pub const LAST_NEXT_ID: u64 = 9_223_372_036_854_775_807;

/// What stands at a cell key.
#[derive(Drop)]
pub enum Cell {
    /// A resource.
    Row(Row),
    /// A link leads along this way back. The rows alone determine these cells.
    Back,
    /// The next id that the server gives in a type. Where it is absent, that is 1.
    Counter(u64),
}
