//! Looks at one cell.
ghost use Rattle.std.specs.Prelude.{◌≡◌, [], ◌∷◌, IfOk};
ghost use Rattle.std.specs.Option.{option_copied};
ghost use Rattle.resource_schema.specs.declared.schema.Schema.{Schema};
ghost use Rattle.world_cells.specs.World.{row_at, has_row, next_id};
ghost use Rattle.store_model.specs.Reach.{is_row_in, is_counter_of};
ghost use Rattle.trial_steps.specs.Found.{row_of, number_of};
ghost use Rattle.trial_steps.specs.Steps.{LooksAt, Sees};

use ident_rules::{Key, NoMemory};
use outer_ends::Work;
use std::alloc::Global;
use view_reads::{Recorder, View};
use world_cells::{Cell, CellKey, Row};

/// A copy of the row at a key, if there is one.
pub fn find_row<V: View>(
    alloc: Global,
    key: &Key,
    recorder: &mut Recorder<V>,
    work: &mut Work,
) -> Result<Option<Row>, NoMemory>
    ensures looks { LooksAt (is_row_in (key.now ∷ [])) recorder.old recorder.new }
    ensures sees { (schema : Schema) → Sees schema V.cells recorder.old recorder.new (λ now. IfOk result (λ row. row ≡ row_at now key.now)) }
{
    let found = recorder.get(&CellKey::Row(*key), work)?;
    copied_row(alloc, found)
}

/// A copy of the row in a cell, if it has one.
fn copied_row(alloc: Global, found: Option<&Cell>) -> Result<Option<Row>, NoMemory>
    ensures { IfOk result (λ row. row ≡ row_of (option_copied found.entry)) }
{
    match found {
        Some(Cell::Row(row)) => Ok(Some(row.copy(alloc)?)),
        _ => Ok(None),
    }
}

/// Whether there is a row at a key.
pub fn has_row<V: View>(
    key: &Key,
    recorder: &mut Recorder<V>,
    work: &mut Work,
) -> Result<bool, NoMemory>
    ensures looks { LooksAt (is_row_in (key.now ∷ [])) recorder.old recorder.new }
    ensures sees { (schema : Schema) → Sees schema V.cells recorder.old recorder.new (λ now. IfOk result (λ b. b ≡ has_row now key.now)) }
{
    let found = recorder.get(&CellKey::Row(*key), work)?;
    Ok(found.is_some())
}

/// The next id of a type.
pub fn next_number<V: View>(
    kind: u32,
    recorder: &mut Recorder<V>,
    work: &mut Work,
) -> Result<u64, NoMemory>
    ensures looks { LooksAt (is_counter_of kind) recorder.old recorder.new }
    ensures sees { (schema : Schema) → Sees schema V.cells recorder.old recorder.new (λ now. IfOk result (λ n. n ≡ next_id now kind)) }
{
    let found = recorder.get(&CellKey::Counter(kind), work)?;
    Ok(number_in(found))
}

/// The next id in a counter's cell: 1 where there is none.
fn number_in(found: Option<&Cell>) -> u64
    ensures { result ≡ number_of (option_copied found.entry) }
{
    match found {
        Some(Cell::Counter(number)) => *number,
        _ => 1,
    }
}
