//! Copies of the rows at some keys.
ghost use Rattle.std.specs.Prelude.{◌≡◌, ◌++◌, IfOk, OnOk, []};
ghost use Rattle.std.specs.List.{cons_option};
ghost use Rattle.resource_schema.specs.declared.schema.Schema.{Schema};
ghost use Rattle.store_model.specs.Pages.{rows_at};
ghost use Rattle.store_model.specs.Reach.{is_row_in};
ghost use Rattle.trial_steps.specs.Steps.{LooksAt, Sees};

use ident_rules::{Key, NoMemory};
use outer_ends::Work;
use std::alloc::Global;
use trial_steps::find_row;
use view_reads::{Recorder, View};
use world_cells::Row;

/// The rows, and one more if it is there.
fn push_found(rows: &mut Vec<Row>, found: Option<Row>) -> Result<(), NoMemory>
    ensures { OnOk result (rows.new.items ≡ rows.old.items ++ cons_option found []) }
{
    match found {
        Some(row) => Ok(rows.push(row)?),
        None => Ok(()),
    }
}

/// Copies of the rows at some keys, in the order of the keys.
pub fn rows_at<V: View>(
    alloc: Global,
    keys: &[Key],
    recorder: &mut Recorder<V>,
    work: &mut Work,
) -> Result<Vec<Row>, NoMemory>
    ensures looks { LooksAt (is_row_in keys.now) recorder.old recorder.new }
    ensures sees { (schema : Schema) → Sees schema V.cells recorder.old recorder.new (λ now. IfOk result (λ rows. rows.items ≡ rows_at now keys.now)) }
{
    let mut rows = Vec::new(alloc);
    for key in keys {
        let found = find_row(alloc, key, recorder, work)?;
        push_found(&mut rows, found)?;
    }
    Ok(rows)
}
