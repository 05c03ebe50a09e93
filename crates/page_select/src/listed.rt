//! One page of rows that are read first: those at listed keys, and those of a type by sort keys.
ghost use Rattle.std.specs.Prelude.{◌≡◌, ◌++◌, ◌==◌, IfOk, OnOk, [], true};
ghost use Rattle.std.specs.List.{cons_option};
ghost use Rattle.resource_schema.specs.declared.schema.Schema.{Schema};
ghost use Rattle.store_model.specs.Pages.{page_of, rows_at, rows_of};
ghost use Rattle.store_model.specs.Reach.{is_row_in, is_row_of};
ghost use Rattle.trial_steps.specs.Steps.{LooksAt, ReadsWithin, Sees};
ghost use Rattle.page_select.specs.Ranges.{anywhere};
ghost use Rattle.page_select.specs.Chosen.{AreListed};

use crate::scans::scan_up;
use crate::slices::page_of_rows;
use ident_rules::{Key, NoMemory};
use outer_ends::Work;
use std::alloc::Global;
use store_model::Selected;
use task_forms::{Page, SortKey};
use trial_steps::find_row;
use view_reads::{Recorder, View};
use world_cells::{Edge, Row};

/// The rows, and one more if it is there.
fn push_found(rows: &mut Vec<Row>, found: Option<Row>) -> Result<(), NoMemory>
    ensures { OnOk result (rows.new.items ≡ rows.old.items ++ cons_option found []) }
{
    match found {
        Some(row) => Ok(rows.push(row)?),
        None => Ok(()),
    }
}

/// Copies of the rows at some keys, in the order of the keys.
fn rows_at<V: View>(
    alloc: Global,
    keys: &[Key],
    recorder: &mut Recorder<V>,
    work: &mut Work,
) -> Result<Vec<Row>, NoMemory>
    ensures looks { LooksAt (is_row_in keys.now) recorder.old recorder.new }
    ensures sees { (schema : Schema) → Sees schema V.cells recorder.old recorder.new (λ now. IfOk result (λ rows. rows.items ≡ rows_at now keys.now)) }
{
    let mut rows = Vec::new(alloc);
    for key in keys {
        let found = find_row(alloc, key, recorder, work)?;
        push_found(&mut rows, found)?;
    }
    Ok(rows)
}

/// One page of the rows at some keys.
pub fn page_listed<V: View>(
    alloc: Global,
    keys: &[Key],
    sort: &[SortKey],
    page: &Page,
    recorder: &mut Recorder<V>,
    work: &mut Work,
) -> Result<Selected, NoMemory>
    ensures looks { LooksAt (is_row_in keys.now) recorder.old recorder.new }
    ensures sees { (schema : Schema) → Sees schema V.cells recorder.old recorder.new (λ now. IfOk result (λ s. AreListed keys.now → s ≡ page_of sort.now page.now (rows_at now keys.now))) }
{
    let rows = rows_at(alloc, keys, recorder, work)?;
    page_of_rows(sort, page, rows)
}

/// One page of a type by sort keys.
pub fn page_by_keys<V: View>(
    alloc: Global,
    kind: u32,
    sort: &[SortKey],
    page: &Page,
    recorder: &mut Recorder<V>,
    work: &mut Work,
) -> Result<Selected, NoMemory>
    ensures looks { LooksAt anywhere recorder.old recorder.new }
    ensures sees { (schema : Schema) → Sees schema V.cells recorder.old recorder.new (λ now. IfOk result (λ s. s ≡ page_of sort.now page.now (rows_of now kind))) }
    ensures reach { (schema : Schema) → IfOk result (λ s. ReadsWithin schema V.cells (λ now. is_row_of (λ key. key.kind == kind)) recorder.old recorder.new) }
{
    let rows = scan_up(
        alloc,
        kind,
        &Edge::End,
        &Edge::End,
        usize::MAX,
        recorder,
        work,
    )?;
    page_of_rows(sort, page, rows)
}
