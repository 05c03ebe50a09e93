ghost use Rattle.std.specs.Prelude.{◌≡◌, IfOk};

use ident_rules::{Id, Key, NoMemory};
use std::alloc::Global;

/// One end of a span of ids.
#[derive(Clone, Copy)]
pub enum Edge {
    /// There is no end.
    End,
    /// The span ends at this id and does not have it.
    Open(Id),
    /// The span ends with this id.
    Closed(Id),
}

/// A span of cell keys. It is copied by `copy` alone.
#[derive(Drop)]
pub enum Span {
    /// The rows of a type whose ids lie between two edges.
    Rows {
        /// The type's number.
        kind: u32,
        /// The edge below.
        low: Edge,
        /// The edge above.
        high: Edge,
    },
    /// The ways back from a resource, past a link's row and relationship where they are given.
    Backs {
        /// The resource that the links lead to.
        to: Key,
        /// The row and the relationship behind which the span begins.
        after: Option<(Key, u32)>,
    },
}

impl Span {
    /// An equal span. Its one error is want of memory.
    pub fn copy(&self, _alloc: Global) -> Result<Span, NoMemory>
        ensures { IfOk result (λ s. s ≡ self.now) }
    {
        match self {
            Span::Rows { kind, low, high } => Ok(Span::Rows {
                kind: *kind,
                low: *low,
                high: *high,
            }),
            Span::Backs { to, after } => Ok(Span::Backs {
                to: *to,
                after: *after,
            }),
        }
    }
}
