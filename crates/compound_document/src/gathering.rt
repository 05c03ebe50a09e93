//! The rows beside primary ones.
ghost use Rattle.std.specs.Prelude.{◌≡◌, IfOk};
ghost use Rattle.trial_steps.specs.Runners.{TellsRead};
ghost use Rattle.compound_document.specs.Gathering.{IsGathered, asked_keys, key_list, keys_in, reach_beside};

use ident_rules::{Key, List, NoMemory};
use include_walk::walk;
use outer_ends::Work;
use resource_schema::Schema;
use std::alloc::Global;
use task_forms::Path;
use view_reads::{Recorder, View};
use world_cells::Row;

/// The keys of some rows.
fn keys_of(alloc: Global, rows: &[Row]) -> Result<Vec<Key>, NoMemory>
    ensures { IfOk result (λ keys. keys.items ≡ keys_in rows.now) }
{
    let mut keys = Vec::with_capacity(alloc, rows.len())?;
    for row in rows {
        keys.push(row.key)?;
    }
    Ok(keys)
}

/// The key of a row, if there is one.
fn key_list(alloc: Global, row: &Option<Row>) -> Result<Vec<Key>, NoMemory>
    ensures { IfOk result (λ keys. keys.items ≡ key_list row.now) }
{
    let mut keys = Vec::new(alloc);
    if let Some(row) = row {
        keys.push(row.key)?;
    }
    Ok(keys)
}

/// The keys of some rows, where paths were asked for: nothing else needs them.
pub fn asked_keys(
    alloc: Global,
    rows: &[Row],
    include: &Option<List<Path>>,
) -> Result<Vec<Key>, NoMemory>
    ensures { IfOk result (λ keys. keys.items ≡ asked_keys include.now (keys_in rows.now)) }
{
    match include {
        Some(_) => keys_of(alloc, rows),
        None => Ok(Vec::new(alloc)),
    }
}

/// The key of a row, if there is one, where paths were asked for.
pub fn asked_key_list(
    alloc: Global,
    row: &Option<Row>,
    include: &Option<List<Path>>,
) -> Result<Vec<Key>, NoMemory>
    ensures { IfOk result (λ keys. keys.items ≡ asked_keys include.now (key_list row.now)) }
{
    match include {
        Some(_) => key_list(alloc, row),
        None => Ok(Vec::new(alloc)),
    }
}

/// The rows that asked paths lead to from primary ones, where paths were asked for (JSON:API 1.1, "Inclusion of Related
/// Resources").
pub fn rows_beside<V: View>(
    alloc: Global,
    schema: &Schema,
    primary: &[Key],
    include: &Option<List<Path>>,
    recorder: &mut Recorder<V>,
    work: &mut Work,
) -> Result<Option<List<Row>>, NoMemory>
    ensures { IfOk result (λ rows. TellsRead schema.now V.cells (reach_beside schema.now primary.now include.now) (IsGathered schema.now primary.now include.now rows) recorder.old recorder.new) }
{
    match include {
        Some(paths) => {
            let rows = walk(alloc, schema, primary, paths.as_slice(), recorder, work)?;
            Ok(Some(List::from_vec(rows)))
        }
        None => Ok(None),
    }
}
