//! Which keys a span has, and what is left of it behind a key.
ghost use Rattle.std.specs.Prelude.{◌≡◌, ℕ, ◌<◌, length, slice_index};
ghost use Rattle.world_cells.specs.Reads.{is_above, is_below, link_cmp, in_span};
ghost use Rattle.view_reads.specs.Bounds.{IsBoundedLink, IsBoundedKey, IsBoundedBacks, IsBacks};
ghost use Rattle.view_reads.specs.Narrowing.{is_behind, is_met, narrowed};
ghost use Rattle.std.specs.Ordering.{is_lt, is_gt};
ghost use Rattle.view_reads.specs.Sides.{side, is_passed};

use ident_rules::{Id, Key};
use std::cmp::Ordering;
use world_cells::{CellKey, Edge, Span};

/// Whether an id lies above an edge.
fn is_above(edge: &Edge, id: &Id) -> bool
    ensures { result ≡ is_above edge.now id.now }
{
    match edge {
        Edge::End => true,
        Edge::Open(low) => low.cmp(id) == Ordering::Less,
        Edge::Closed(low) => low.cmp(id) != Ordering::Greater,
    }
}

/// Whether an id lies below an edge.
fn is_below(edge: &Edge, id: &Id) -> bool
    ensures { result ≡ is_below edge.now id.now }
{
    match edge {
        Edge::End => true,
        Edge::Open(high) => id.cmp(high) == Ordering::Less,
        Edge::Closed(high) => id.cmp(high) != Ordering::Greater,
    }
}

/// The order of links: by row, and then by relationship.
fn link_cmp(left: &(Key, u32), from: &Key, rel: u32) -> Ordering
    ensures { result ≡ link_cmp left.now (from.now, rel) }
{
    match left.0.cmp(from) {
        Ordering::Equal => left.1.cmp(&rel),
        order => order,
    }
}

/// Whether a link stands behind another, if there is one.
fn is_behind(after: &Option<(Key, u32)>, from: &Key, rel: u32) -> bool
    ensures { result ≡ is_behind after.now (from.now, rel) }
{
    match after {
        Some(first) => link_cmp(first, from, rel) == Ordering::Less,
        None => true,
    }
}

/// Whether a span has a key.
pub fn in_span(span: &Span, key: &CellKey) -> bool
    ensures { result ≡ in_span span.now key.now }
{
    match (span, key) {
        (Span::Rows { kind, low, high }, CellKey::Row(row)) => {
            row.kind == *kind && is_above(low, &row.id) && is_below(high, &row.id)
        }
        (
            Span::Backs { to, after },
            CellKey::Back {
                to: target,
                from,
                rel,
            },
        ) => *to == *target && is_behind(after, from, *rel),
        _ => false,
    }
}

/// Whether a key stands before a span.
fn is_before(span: &Span, key: &CellKey) -> bool
    ensures { result ≡ is_lt (side span.now key.now) }
{
    match (span, key) {
        (Span::Rows { kind, low, .. }, CellKey::Row(row)) => match row.kind.cmp(kind) {
            Ordering::Equal => !is_above(low, &row.id),
            order => order == Ordering::Less,
        },
        (Span::Rows { .. }, _) => false,
        (Span::Backs { .. }, CellKey::Row(_)) => true,
        (
            Span::Backs { to, after },
            CellKey::Back {
                to: target,
                from,
                rel,
            },
        ) => match target.cmp(to) {
            Ordering::Equal => !is_behind(after, from, *rel),
            order => order == Ordering::Less,
        },
        (Span::Backs { .. }, CellKey::Counter(_)) => false,
    }
}

/// Whether a key stands behind a span.
fn is_past(span: &Span, key: &CellKey) -> bool
    ensures { result ≡ is_gt (side span.now key.now) }
{
    match (span, key) {
        (Span::Rows { kind, low, high }, CellKey::Row(row)) => match row.kind.cmp(kind) {
            Ordering::Equal => is_above(low, &row.id) && !is_below(high, &row.id),
            order => order == Ordering::Greater,
        },
        (Span::Rows { .. }, _) => true,
        (Span::Backs { .. }, CellKey::Row(_)) => false,
        (Span::Backs { to, .. }, CellKey::Back { to: target, .. }) => {
            target.cmp(to) == Ordering::Greater
        }
        (Span::Backs { .. }, CellKey::Counter(_)) => true,
    }
}

/// Whether a key stands before a span, or, where the span is to be passed too, not behind it.
pub fn is_passed(whole: bool, span: &Span, key: &CellKey) -> bool
    ensures { result ≡ is_passed whole span.now key.now }
{
    if whole {
        !is_past(span, key)
    } else {
        is_before(span, key)
    }
}

/// Whether a search, from the top or else from the low end, meets one key before another.
pub(crate) fn is_met(from_top: bool, left: &CellKey, right: &CellKey) -> bool
    ensures { result ≡ is_met from_top left.now right.now }
{
    if from_top {
        right.cmp(left) == Ordering::Less
    } else {
        left.cmp(right) == Ordering::Less
    }
}

/// An equal span.
pub(crate) fn same_span(span: &Span) -> Span
    ensures { result ≡ span.now }
{
    match span {
        Span::Rows { kind, low, high } => Span::Rows {
            kind: *kind,
            low: *low,
            high: *high,
        },
        Span::Backs { to, after } => Span::Backs {
            to: *to,
            after: *after,
        },
    }
}

/// What a search of a span still has before it behind a key of the span.
pub(crate) fn narrowed(from_top: bool, span: Span, key: &CellKey) -> Span
    ensures { result ≡ narrowed from_top span key.now }
{
    match (span, key) {
        (Span::Rows { kind, low, high }, CellKey::Row(row)) => {
            if from_top {
                Span::Rows {
                    kind,
                    low,
                    high: Edge::Open(row.id),
                }
            } else {
                Span::Rows {
                    kind,
                    low: Edge::Open(row.id),
                    high,
                }
            }
        }
        (Span::Backs { to, after: _ }, CellKey::Back { to: _, from, rel }) => Span::Backs {
            to,
            after: Some((*from, *rel)),
        },
        (span, _) => span,
    }
}

/// What the type of bytes keeps. This and the next three do nothing: they are called for what their contracts say.
fn bound_bytes(bytes: &[u8])
    ensures { (k : ℕ) → k < length bytes.now → slice_index bytes.now k < 256 }
{
    let _ = bytes;
}

/// What the types of a link's numbers and of its id keep.
fn bound_link(kind: u32, id: &Id, rel: u32)
    ensures { IsBoundedLink (record { kind = kind; id = id.now }) rel }
{
    bound_bytes(id.bytes());
}

/// What the types of a key's numbers and ids keep.
pub(crate) fn bound_key(key: &CellKey)
    ensures { IsBoundedKey key.now }
{
    if let CellKey::Back { to: _, from, rel } = key {
        bound_link(from.kind, &from.id, *rel);
    }
}

/// What the types of a span's numbers and ids keep.
pub(crate) fn bound_backs(span: &Span)
    requires { IsBacks span.now }
    ensures { IsBoundedBacks span.now }
{
    if let Span::Backs {
        to: _,
        after: Some((from, rel)),
    } = span
    {
        bound_link(from.kind, &from.id, *rel);
    }
}
