//! A page of rows that are at hand: they are sorted, and the page is cut out.
ghost use Rattle.std.specs.Prelude.{◌≡◌, ◌+◌, ◌-◌, ◌≤◌, ◌&&◌, nat_lt, IfOk, length, take, drop, true, false, min, vec_len, if◌then◌else◌};
ghost use Rattle.std.specs.List.{IsDistinct};
ghost use Rattle.std.specs.List.Sorted.{IsPartitionPoint, IsPermutation};
ghost use Rattle.store_model.specs.Pages.{ends_at_cursor, is_ahead_of_cursor as ahead, is_behind_cursor as behind, is_range, page_of, place_of as spot};
ghost use Rattle.page_select.specs.Orders.{AreInOrder, same_row};

use crate::edges::{ends_at_cursor, is_range};
use crate::orders::{is_ahead, is_behind, row_order};
use ident_rules::{List, NoMemory};
use resource_schema::Place;
use store_model::{Selected, page_is_one, pages_are_exact};
use task_forms::{Page, SortKey};
use world_cells::Row;

/// The rows in their order.
fn in_order(sort: &[SortKey], rows: Vec<Row>) -> Result<Vec<Row>, NoMemory>
    ensures permutation { IfOk result (λ sorted. IsPermutation rows.items sorted.items) }
    ensures in_order { IfOk result (λ sorted. IsDistinct same_row rows.items → AreInOrder sort.now sorted.items) }
{
    let mut rows = rows;
    rows.sort_by(|one, other| row_order(sort, one, other))?;
    Ok(rows)
}

/// How many rows do not stand behind a cursor; none is given: no row.
fn not_behind(sort: &[SortKey], after: &Option<Place>, rows: &[Row]) -> usize
    ensures within { result ≤ length rows.now }
    ensures cut { AreInOrder sort.now rows.now → IsPartitionPoint (λ r. behind sort.now after.now (spot sort.now r) ≡ false) (λ r. behind sort.now after.now (spot sort.now r) ≡ true) rows.now result }
{
    match after {
        Some(cursor) => rows.partition_point(|row| !is_behind(sort, cursor, row)),
        None => 0,
    }
}

/// How many rows stand before a cursor; none is given: each row.
fn all_ahead(sort: &[SortKey], before: &Option<Place>, rows: &[Row]) -> usize
    ensures within { result ≤ length rows.now }
    ensures cut { AreInOrder sort.now rows.now → IsPartitionPoint (λ r. ahead sort.now before.now (spot sort.now r) ≡ true) (λ r. ahead sort.now before.now (spot sort.now r) ≡ false) rows.now result }
{
    match before {
        Some(cursor) => rows.partition_point(|row| is_ahead(sort, cursor, row)),
        None => rows.len(),
    }
}

/// The place of the first row that a page shows, where this one is the first that it asks for.
fn first_shown(page: &Page, start: usize, asked: usize, count: usize) -> usize
    requires few { count ≤ asked }
    requires within { start + asked ≤ 18446744073709551615 }
    ensures { result ≡ (if ends_at_cursor page.now then start + (asked - count) else start) }
{
    if ends_at_cursor(page) {
        start + (asked - count)
    } else {
        start
    }
}

/// So many rows from a place on.
fn cut(rows: Vec<Row>, low: usize, count: usize) -> Vec<Row>
    requires { low + count ≤ vec_len rows }
    ensures { result.items ≡ take count (drop low rows.items) }
{
    let mut rows = rows;
    rows.truncate(low + count);
    rows.rotate_left(low);
    rows.truncate(count);
    rows
}

/// Whether a row stands before the first of so many from a place on.
fn has_before(count: usize, low: usize) -> bool
    ensures { result ≡ (nat_lt 0 count && nat_lt 0 low) }
{
    count > 0 && low > 0
}

/// Whether a row stands behind the last of so many that end at a place.
fn has_after(count: usize, high: usize, whole: usize) -> bool
    ensures { result ≡ (nat_lt 0 count && nat_lt high whole) }
{
    count > 0 && high < whole
}

/// Whether a range asks for more rows than a page of it shows.
fn is_truncated(page: &Page, asked: usize) -> bool
    ensures { result ≡ (is_range page.now && nat_lt page.now.size asked) }
{
    is_range(page) && (page.size as usize) < asked
}

/// The page of rows that stand in order.
fn page_in_order(sort: &[SortKey], page: &Page, rows: Vec<Row>) -> Selected
    ensures { AreInOrder sort.now rows.items → result ≡ page_of sort.now page.now rows.items }
{
    let start = not_behind(sort, &page.after, rows.as_slice());
    let end = all_ahead(sort, &page.before, rows.as_slice());
    let asked = end.saturating_sub(start);
    let count = asked.min(page.size as usize);
    let low = first_shown(page, start, asked, count);
    let whole = rows.len();
    let shown = cut(rows, low, count);
    Selected {
        rows: List::from_vec(shown),
        before: has_before(count, low),
        after: has_after(count, low + count, whole),
        truncated: is_truncated(page, asked),
    }
}

/// The page of some rows, in any order, whose ids tell them apart.
pub fn page_of_rows(sort: &[SortKey], page: &Page, rows: Vec<Row>) -> Result<Selected, NoMemory>
    ensures { IfOk result (λ s. IsDistinct same_row rows.items → s ≡ page_of sort.now page.now rows.items) }
{
    pages_are_exact();
    page_is_one();
    let sorted = in_order(sort, rows)?;
    Ok(page_in_order(sort, page, sorted))
}
