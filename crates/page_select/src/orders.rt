//! The order of values, and of rows and cursors by sort keys (JSON:API 1.1, "Sorting").
ghost use Rattle.std.specs.Prelude.{◌≡◌, ◌<◌, length, get_or};
ghost use Rattle.std.specs.Ordering.{is_lt};
ghost use Rattle.resource_schema.specs.declared.values.AttrValue.TheVariants as value;
ghost use Rattle.store_model.specs.Pages.{in_direction, place_cmp, place_of, value_cmp, values_cmp};
ghost use Rattle.page_select.specs.Orders.{place_in};

use ident_rules::Id;
use resource_schema::{AttrValue, Place};
use std::cmp::Ordering;
use task_forms::SortKey;
use world_cells::Row;

/// What stands in an order: a row, or a cursor.
#[derive(Clone, Copy)]
pub enum Standing<'a> {
    /// By its values of the sort keys, and its id.
    AtRow(&'a Row),
    /// By the values that it has, and its id.
    AtCursor(&'a Place),
}

/// Null first, false before true, integers by size, texts by bytes; values of two forms by their forms.
fn value_order(one: &AttrValue, other: &AttrValue) -> Ordering
    ensures { result ≡ value_cmp one.now other.now }
{
    match one {
        AttrValue::Null => match other {
            AttrValue::Null => Ordering::Equal,
            AttrValue::Int(_) | AttrValue::Text(_) | AttrValue::Bool(_) => Ordering::Less,
        },
        AttrValue::Int(left) => match other {
            AttrValue::Null => Ordering::Greater,
            AttrValue::Int(right) => left.cmp(right),
            AttrValue::Text(_) | AttrValue::Bool(_) => Ordering::Less,
        },
        AttrValue::Text(left) => match other {
            AttrValue::Null | AttrValue::Int(_) => Ordering::Greater,
            AttrValue::Text(right) => left.as_str().cmp(right.as_str()),
            AttrValue::Bool(_) => Ordering::Less,
        },
        AttrValue::Bool(left) => match other {
            AttrValue::Null | AttrValue::Int(_) | AttrValue::Text(_) => Ordering::Greater,
            AttrValue::Bool(right) => left.cmp(right),
        },
    }
}

/// The order of values by one key.
fn key_order(key: SortKey, one: &AttrValue, other: &AttrValue) -> Ordering
    ensures { result ≡ in_direction key.descending one.now other.now }
{
    if key.descending {
        value_order(other, one)
    } else {
        value_order(one, other)
    }
}

/// The value at an index, or this one past the end.
fn value_or<'a>(values: &'a [AttrValue], index: usize, null: &'a AttrValue) -> &'a AttrValue
    ensures { result.now ≡ get_or values.now index null.now }
{
    match values.get(index) {
        Some(value) => value,
        None => null,
    }
}

/// The value of a sort key, or null.
fn value_at<'a>(
    sort: &[SortKey],
    index: usize,
    standing: Standing<'a>,
    null: &'a AttrValue,
) -> &'a AttrValue
    requires within { index < length sort.now }
    requires null { null.now ≡ value.Null }
    ensures { result.now ≡ get_or (place_in sort.now standing.entry).values index value.Null }
{
    match standing {
        Standing::AtRow(row) => {
            value_or(row.values.as_slice(), sort[index].attribute as usize, null)
        }
        Standing::AtCursor(place) => value_or(place.values.as_slice(), index, null),
    }
}

/// The order by the sort keys alone.
fn values_order(sort: &[SortKey], one: Standing<'_>, other: Standing<'_>) -> Ordering
    ensures { result ≡ values_cmp sort.now (place_in sort.now one.entry).values (place_in sort.now other.entry).values }
{
    let null = AttrValue::Null;
    for index in 0..sort.len() {
        let left = value_at(sort, index, one, &null);
        let right = value_at(sort, index, other, &null);
        match key_order(sort[index], left, right) {
            Ordering::Equal => {}
            Ordering::Less => return Ordering::Less,
            Ordering::Greater => return Ordering::Greater,
        }
    }
    Ordering::Equal
}

fn id_at(sort: &[SortKey], standing: Standing<'_>) -> Id
    ensures { result ≡ (place_in sort.now standing.entry).id }
{
    match standing {
        Standing::AtRow(row) => row.key.id,
        Standing::AtCursor(place) => place.id,
    }
}

/// The order by the sort keys, and then by the id.
fn place_order(sort: &[SortKey], one: Standing<'_>, other: Standing<'_>) -> Ordering
    ensures { result ≡ place_cmp sort.now (place_in sort.now one.entry) (place_in sort.now other.entry) }
{
    let (left, right) = (id_at(sort, one), id_at(sort, other));
    values_order(sort, one, other).then(left.cmp(&right))
}

/// The order of two rows.
pub fn row_order(sort: &[SortKey], one: &Row, other: &Row) -> Ordering
    ensures { result ≡ place_cmp sort.now (place_of sort.now one.now) (place_of sort.now other.now) }
{
    place_order(sort, Standing::AtRow(one), Standing::AtRow(other))
}

/// Whether a row stands behind a cursor.
pub fn is_behind(sort: &[SortKey], cursor: &Place, row: &Row) -> bool
    ensures { result ≡ is_lt (place_cmp sort.now cursor.now (place_of sort.now row.now)) }
{
    place_order(sort, Standing::AtCursor(cursor), Standing::AtRow(row)).is_lt()
}

/// Whether a row stands before a cursor.
pub fn is_ahead(sort: &[SortKey], cursor: &Place, row: &Row) -> bool
    ensures { result ≡ is_lt (place_cmp sort.now (place_of sort.now row.now) cursor.now) }
{
    place_order(sort, Standing::AtRow(row), Standing::AtCursor(cursor)).is_lt()
}
