use crate::Code;
use ident_rules::Text;

/// What a refusal names as its source (JSON:API 1.1, "Error Objects", `source`).
#[derive(Debug, Drop)]
pub enum Blame {
    /// Nothing.
    Nothing,
    /// A value of the request's document, by its pointer (RFC 6901).
    Pointer(Text),
    /// A query parameter, by its name.
    Parameter(Text),
    /// A field of the head, by its name.
    Header(Text),
}

/// A request is refused: why, and for what.
#[derive(Debug, Drop)]
pub struct Refusal {
    /// Why.
    pub code: Code,
    /// What is to blame.
    pub blame: Blame,
}

/// What reading something gives.
#[derive(Debug, Drop)]
pub enum Read<T> {
    /// What was read.
    Good(T),
    /// The first refusal.
    Refused(Refusal),
    /// Want of memory.
    NoMemory,
}
