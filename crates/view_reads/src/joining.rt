//! The parts of spans that were looked through. A look that goes on where the last part ended widens that one.
ghost use Rattle.std.specs.Prelude.{◌≡◌, false, OnOk, OnErr};
ghost use Rattle.std.specs.Option.{option_map_or};
ghost use Rattle.world_cells.specs.declared.spans.Span.TheVariants as span;
ghost use Rattle.view_reads.specs.Joining.{open_row, start_of, spanning, goes_on, widened, last_part, IsWhole, AddsPart};

use crate::spans::in_span;
use ident_rules::{Key, NoMemory};
use std::alloc::Global;
use world_cells::{CellKey, Edge, Part, Span};

/// The key of a row at which an edge is open.
fn open_row(kind: u32, edge: &Edge) -> Option<CellKey>
    ensures { result ≡ open_row kind edge.now }
{
    match edge {
        Edge::Open(id) => Some(CellKey::Row(Key { kind, id: *id })),
        _ => None,
    }
}

/// The key just behind which a search of a span begins, from the top or else from the low end, where its edge is open there.
fn start_of(from_top: bool, span: &Span) -> Option<CellKey>
    ensures { result ≡ start_of from_top span.now }
{
    match span {
        Span::Rows { kind, low, high } => open_row(*kind, if from_top { high } else { low }),
        Span::Backs {
            to,
            after: Some((from, rel)),
        } if !from_top => Some(CellKey::Back {
            to: *to,
            from: *from,
            rel: *rel,
        }),
        _ => None,
    }
}

/// The span from where a search of one span begins to where a search of the next one ends.
fn spanning(from_top: bool, first: &Span, next: &Span) -> Span
    ensures { result ≡ spanning from_top first.now next.now }
{
    match (first, next) {
        (
            Span::Rows { low, high, .. },
            Span::Rows {
                kind,
                low: next_low,
                high: next_high,
            },
        ) => {
            if from_top {
                Span::Rows {
                    kind: *kind,
                    low: *next_low,
                    high: *high,
                }
            } else {
                Span::Rows {
                    kind: *kind,
                    low: *low,
                    high: *next_high,
                }
            }
        }
        (Span::Backs { after, .. }, Span::Backs { to, .. }) => Span::Backs {
            to: *to,
            after: *after,
        },
        (_, Span::Rows { kind, low, high }) => Span::Rows {
            kind: *kind,
            low: *low,
            high: *high,
        },
        (_, Span::Backs { to, after }) => Span::Backs {
            to: *to,
            after: *after,
        },
    }
}

/// Whether a look into a span goes on where a part ended: it begins just behind the key that was found there, so that both
/// together looked through a part of one span.
fn goes_on(last: &Part, from_top: bool, span: &Span) -> bool
    ensures { result ≡ goes_on last.now from_top span.now }
{
    let (Some(found), Some(start)) = (&last.found, start_of(from_top, span)) else {
        return false;
    };
    last.from_top == from_top
        && *found == start
        && in_span(&last.span, found)
        && in_span(&spanning(from_top, &last.span, span), found)
}

/// Widens a span of rows to where a search of the next one ends.
fn widen_rows(whole: &mut Span, from_top: bool, next_kind: u32, next_low: &Edge, next_high: &Edge)
    ensures { whole.new ≡ spanning from_top whole.old (span.Rows next_kind next_low.now next_high.now) }
{
    match whole {
        Span::Rows { kind, low, high } => {
            *kind = next_kind;
            if from_top {
                *low = *next_low;
            } else {
                *high = *next_high;
            }
        }
        Span::Backs { .. } => {
            *whole = Span::Rows {
                kind: next_kind,
                low: *next_low,
                high: *next_high,
            };
        }
    }
}

/// Widens a span to where a search of the next one ends.
fn widen_span(whole: &mut Span, from_top: bool, next: &Span)
    ensures { whole.new ≡ spanning from_top whole.old next.now }
{
    match next {
        Span::Rows { kind, low, high } => widen_rows(whole, from_top, *kind, low, high),
        Span::Backs { .. } => *whole = spanning(from_top, whole, next),
    }
}

/// Widens a part by one that goes on where it ended.
fn widen(last: &mut Part, from_top: bool, span: &Span, found: Option<CellKey>)
    ensures { last.new ≡ widened last.old (record { span = span.now; found = found; from_top = from_top }) }
{
    widen_span(&mut last.span, from_top, span);
    last.found = found;
    last.from_top = from_top;
}

/// Whether a look into a span goes on where the last part ended, if there is one.
fn goes_on_last(parts: &[Part], from_top: bool, span: &Span) -> bool
    ensures { result ≡ option_map_or (λ last. goes_on last from_top span.now) (last_part parts.now) false }
{
    match parts.last() {
        Some(last) => goes_on(last, from_top, span),
        None => false,
    }
}

/// Adds a part of a span: the last one is widened in its place where this one goes on there. Its one error is want of memory,
/// after which nothing has changed.
pub(crate) fn add_part(
    alloc: Global,
    parts: &mut Vec<Part>,
    from_top: bool,
    span: &Span,
    found: Option<CellKey>,
) -> Result<(), NoMemory>
    requires { IsWhole (record { span = span.now; found = found; from_top = from_top }) }
    ensures ok { OnOk result (AddsPart parts.old.items (record { span = span.now; found = found; from_top = from_top }) parts.new.items) }
    ensures err { OnErr result (parts.new.items ≡ parts.old.items) }
{
    if goes_on_last(parts, from_top, span) {
        let last = parts.len() - 1;
        widen(&mut parts[last], from_top, span, found);
        return Ok(());
    }
    parts.push(Part {
        span: span.copy(alloc)?,
        found,
        from_top,
    })?;
    Ok(())
}
