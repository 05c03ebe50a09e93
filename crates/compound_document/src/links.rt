//! The links of a page (Cursor Pagination profile, "Links").
ghost use Rattle.std.specs.Prelude.{◌≡◌, IfOk, codes, option_copied};
ghost use Rattle.document_texts.specs.Texts.{link_data};
ghost use Rattle.store_model.specs.Document.{link_text, page_link, page_links};
ghost use Rattle.store_model.specs.Pages.{first_item, last_item};
ghost use Rattle.compound_document.specs.Documents.{links_data};

use crate::pairs::pairs_with;
use crate::places::place_of;
use cursor_codec::write_cursor;
use ident_rules::{NoMemory, Text};
use std::alloc::Global;
use store_model::Selected;
use task_forms::Query;
use uri_texts::with_query;
use world_cells::Row;

/// The path with the request's pairs, and a cursor at a row.
fn link_text(
    alloc: Global,
    path: &str,
    query: &Query,
    name: &str,
    row: &Row,
) -> Result<Text, NoMemory>
    ensures { IfOk result (λ t. t ≡ link_text path.now query.now name.now row.now) }
{
    let place = place_of(alloc, query.sort.as_slice(), row)?;
    let cursor = write_cursor(alloc, &place)?;
    let pairs = pairs_with(alloc, query.pairs.as_slice(), name, cursor)?;
    with_query(alloc, path, pairs.as_slice())
}

/// A link with the cursor of a row, where another row stands beyond it.
fn page_link(
    alloc: Global,
    path: &str,
    query: &Query,
    name: &str,
    row: Option<&Row>,
    there: bool,
) -> Result<Option<Text>, NoMemory>
    ensures { IfOk result (λ t. link_data t ≡ page_link path.now query.now name.now (option_copied row.entry) there) }
{
    if !there {
        return Ok(None);
    }
    match row {
        Some(row) => Ok(Some(link_text(alloc, path, query, name, row)?)),
        None => Ok(None),
    }
}

/// The first of some rows.
fn first_of(rows: &[Row]) -> Option<&Row>
    ensures { option_copied result ≡ first_item rows.now }
{
    rows.first()
}

/// The last of some rows.
fn last_of(rows: &[Row]) -> Option<&Row>
    ensures { option_copied result ≡ last_item rows.now }
{
    rows.last()
}

/// The links of a page: to what stands behind its last row, and before its first.
pub fn page_links(
    alloc: Global,
    path: &str,
    query: &Query,
    page: &Selected,
) -> Result<(Option<Text>, Option<Text>), NoMemory>
    ensures { IfOk result (λ p. links_data p.0 p.1 ≡ page_links path.now query.now page.now) }
{
    let rows = page.rows.as_slice();
    let last = last_of(rows);
    let next = page_link(alloc, path, query, "page[after]", last, page.after)?;
    let first = first_of(rows);
    let prev = page_link(alloc, path, query, "page[before]", first, page.before)?;
    Ok((next, prev))
}
