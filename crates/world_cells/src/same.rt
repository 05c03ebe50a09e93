ghost use Rattle.std.specs.Prelude.{◌≡◌, ◌↔◌, IsTrue};

use crate::{Cell, Link, Row};
use ident_rules::{Id, Key};
use resource_schema::same_values;

/// Whether two ids are equal.
fn same_id(one: &Id, other: &Id) -> bool
    ensures { IsTrue result ↔ (one.now ≡ other.now) }
{
    *one == *other
}

/// Whether two keys are equal.
fn same_key(one: &Key, other: &Key) -> bool
    ensures { IsTrue result ↔ (one.now ≡ other.now) }
{
    *one == *other
}

/// Whether two ids are equal, or neither is there.
fn same_option(one: &Option<Id>, other: &Option<Id>) -> bool
    ensures { IsTrue result ↔ (one.now ≡ other.now) }
{
    match (one, other) {
        (None, None) => true,
        (Some(x), Some(y)) => same_id(x, y),
        _ => false,
    }
}

/// Whether two lists of ids are equal.
fn same_ids(one: &[Id], other: &[Id]) -> bool
    ensures { IsTrue result ↔ (one.now ≡ other.now) }
{
    if one.len() != other.len() {
        return false;
    }
    let mut place = 0;
    while place < one.len() {
        if !same_id(&one[place], &other[place]) {
            return false;
        }
        place += 1;
    }
    true
}

/// Whether two links are equal. Takes no memory.
pub fn same_link(one: &Link, other: &Link) -> bool
    ensures { IsTrue result ↔ (one.now ≡ other.now) }
{
    match (one, other) {
        (Link::One(x), Link::One(y)) => same_option(x, y),
        (Link::Many(xs), Link::Many(ys)) => same_ids(xs.as_slice(), ys.as_slice()),
        _ => false,
    }
}

/// Whether two lists of links are equal.
fn same_links(one: &[Link], other: &[Link]) -> bool
    ensures { IsTrue result ↔ (one.now ≡ other.now) }
{
    if one.len() != other.len() {
        return false;
    }
    let mut place = 0;
    while place < one.len() {
        if !same_link(&one[place], &other[place]) {
            return false;
        }
        place += 1;
    }
    true
}

/// Whether two rows are equal. Takes no memory.
pub fn same_row(one: &Row, other: &Row) -> bool
    ensures { IsTrue result ↔ (one.now ≡ other.now) }
{
    if !same_key(&one.key, &other.key) {
        return false;
    }
    if !same_values(one.values.as_slice(), other.values.as_slice()) {
        return false;
    }
    same_links(one.links.as_slice(), other.links.as_slice())
}

/// Whether two cells are equal. Takes no memory.
pub fn same_cell(one: &Cell, other: &Cell) -> bool
    ensures { IsTrue result ↔ (one.now ≡ other.now) }
{
    match (one, other) {
        (Cell::Row(x), Cell::Row(y)) => same_row(x, y),
        (Cell::Back, Cell::Back) => true,
        (Cell::Counter(x), Cell::Counter(y)) => x == y,
        _ => false,
    }
}
