//! Where a row stands in an order.
ghost use Rattle.std.specs.Prelude.{◌≡◌, IfOk, get_or, map};
ghost use Rattle.resource_schema.specs.declared.values.AttrValue.TheVariants as value;
ghost use Rattle.store_model.specs.Pages.{place_of};

use ident_rules::{List, NoMemory};
use resource_schema::{AttrValue, Place};
use std::alloc::Global;
use task_forms::SortKey;
use world_cells::Row;

/// A copy of a row's value, or null where it has none.
fn value_at(alloc: Global, values: &[AttrValue], index: usize) -> Result<AttrValue, NoMemory>
    ensures { IfOk result (λ v. v ≡ get_or values.now index value.Null) }
{
    match values.get(index) {
        Some(value) => value.copy(alloc),
        None => Ok(AttrValue::Null),
    }
}

/// The place of a row: its values of the sort keys, and its id (Cursor Pagination profile, "Cursors").
pub fn place_of(alloc: Global, sort: &[SortKey], row: &Row) -> Result<Place, NoMemory>
    ensures { IfOk result (λ p. p ≡ place_of sort.now row.now) }
{
    let mut values = Vec::new(alloc);
    for key in sort {
        let value = value_at(alloc, row.values.as_slice(), key.attribute as usize)?;
        values.push(value)?;
    }
    Ok(Place {
        values: List::from_vec(values),
        id: row.key.id,
    })
}
