//! Rows of a type between two edges, from one end on.
ghost use Rattle.std.specs.Prelude.{◌≡◌, IfOk, reverse};
ghost use Rattle.resource_schema.specs.declared.schema.Schema.{Schema};
ghost use Rattle.trial_steps.specs.Steps.{LooksAt, ReadsWithin, Sees};
ghost use Rattle.page_select.specs.Ranges.{anywhere};
ghost use Rattle.page_select.specs.Scans.{IsScannedUp, IsScannedDown, read_up, read_down};

use crate::edges::edge_at;
use crate::looks::{first_row, last_row};
use ident_rules::NoMemory;
use outer_ends::Work;
use std::alloc::Global;
use view_reads::{Recorder, View};
use world_cells::{Edge, Row};

/// The first rows of a type between two edges, at most `size`, in ascending order of ids.
pub fn scan_up<V: View>(
    alloc: Global,
    kind: u32,
    low: &Edge,
    high: &Edge,
    size: usize,
    recorder: &mut Recorder<V>,
    work: &mut Work,
) -> Result<Vec<Row>, NoMemory>
    ensures looks { LooksAt anywhere recorder.old recorder.new }
    ensures sees { (schema : Schema) → Sees schema V.cells recorder.old recorder.new (λ now. IfOk result (λ rows. IsScannedUp now kind low.now high.now size rows.items)) }
    ensures reach { (schema : Schema) → IfOk result (λ rows. ReadsWithin schema V.cells (λ now. read_up kind low.now high.now size rows.items) recorder.old recorder.new) }
{
    let mut rows = Vec::new(alloc);
    let mut from = *low;
    'more: while rows.len() < size {
        let found = first_row(alloc, kind, &from, high, recorder, work)?;
        let Some(row) = found else {
            return Ok(rows);
        };
        from = edge_at(&row);
        rows.push(row)?;
    }
    Ok(rows)
}

/// Rows in the opposite order.
fn reversed(rows: Vec<Row>) -> Vec<Row>
    ensures { result.items ≡ reverse rows.items }
{
    let mut rows = rows;
    rows.reverse();
    rows
}

/// The last rows of a type between two edges, at most `size`, in ascending order of ids.
pub fn scan_down<V: View>(
    alloc: Global,
    kind: u32,
    low: &Edge,
    high: &Edge,
    size: usize,
    recorder: &mut Recorder<V>,
    work: &mut Work,
) -> Result<Vec<Row>, NoMemory>
    ensures looks { LooksAt anywhere recorder.old recorder.new }
    ensures sees { (schema : Schema) → Sees schema V.cells recorder.old recorder.new (λ now. IfOk result (λ rows. IsScannedDown now kind low.now high.now size rows.items)) }
    ensures reach { (schema : Schema) → IfOk result (λ rows. ReadsWithin schema V.cells (λ now. read_down kind low.now high.now size rows.items) recorder.old recorder.new) }
{
    let mut rows = Vec::new(alloc);
    let mut to = *high;
    'back: while rows.len() < size {
        let found = last_row(alloc, kind, low, &to, recorder, work)?;
        let Some(row) = found else {
            return Ok(reversed(rows));
        };
        to = edge_at(&row);
        rows.push(row)?;
    }
    Ok(reversed(rows))
}
