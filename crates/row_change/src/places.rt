use ident_rules::Key;

/// Where the members of a linkage may lead.
#[derive(Clone, Copy, Debug)]
pub enum MayLinkTo {
    /// Anywhere: the rows need not exist.
    Anywhere,
    /// To a row that exists.
    AtRow,
    /// To a row that exists, or to this key, whose row is being created.
    AtRowOr(Key),
}
