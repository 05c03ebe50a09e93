//! The edges of what a page asks for, and of what is left beside some rows.
ghost use Rattle.std.specs.Prelude.{◌≡◌};
ghost use Rattle.world_cells.specs.declared.spans.Edge.TheVariants as edge;
ghost use Rattle.store_model.specs.Pages.{ends_at_cursor, is_range};
ghost use Rattle.page_select.specs.Scans.{edge_past};
ghost use Rattle.page_select.specs.Edges.{low_edge, high_edge};

use task_forms::Page;
use world_cells::{Edge, Row};

/// The edge at a row's id.
pub fn edge_at(row: &Row) -> Edge
    ensures { result ≡ edge.Open row.now.key.id }
{
    Edge::Open(row.key.id)
}

/// The edge behind the last of some rows, or this one where there is no row.
pub fn edge_past(low: &Edge, rows: &[Row]) -> Edge
    ensures { result ≡ edge_past low.now rows.now }
{
    let count = rows.len();
    if count == 0 {
        return *low;
    }
    edge_at(&rows[count - 1])
}

/// The edge below what a page asks for.
pub fn low_edge(page: &Page) -> Edge
    ensures { result ≡ low_edge page.now }
{
    match &page.after {
        Some(place) => Edge::Open(place.id),
        None => Edge::End,
    }
}

/// The edge above what a page asks for.
pub fn high_edge(page: &Page) -> Edge
    ensures { result ≡ high_edge page.now }
{
    match &page.before {
        Some(place) => Edge::Open(place.id),
        None => Edge::End,
    }
}

/// Whether a page ends at a cursor and has none to begin at.
pub fn ends_at_cursor(page: &Page) -> bool
    ensures { result ≡ ends_at_cursor page.now }
{
    page.after.is_none() && page.before.is_some()
}

/// Whether a page lies between two cursors (Cursor Pagination profile, "Range Pagination").
pub fn is_range(page: &Page) -> bool
    ensures { result ≡ is_range page.now }
{
    page.after.is_some() && page.before.is_some()
}
