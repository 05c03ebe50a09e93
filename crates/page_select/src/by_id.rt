//! One page of a type in the order of the ids.
ghost use Rattle.std.specs.Prelude.{◌≡◌, IfOk, [], true, false};
ghost use Rattle.resource_schema.specs.declared.schema.Schema.{Schema};
ghost use Rattle.store_model.specs.Pages.{ends_at_cursor, page_of, rows_of};
ghost use Rattle.store_model.specs.Reach.{is_row_of, reach_sorted};
ghost use Rattle.trial_steps.specs.Steps.{LooksAt, ReadsWithin, Sees};
ghost use Rattle.page_select.specs.Ranges.{anywhere};

use crate::edges::{ends_at_cursor, high_edge, low_edge};
use crate::flanks::{flanked, is_cut_short};
use crate::scans::{scan_down, scan_up};
use ident_rules::NoMemory;
use outer_ends::Work;
use std::alloc::Global;
use store_model::Selected;
use task_forms::Page;
use view_reads::{Recorder, View};

/// A page from the first row on or behind a cursor, up to another cursor where it is given.
fn page_up<V: View>(
    alloc: Global,
    kind: u32,
    page: &Page,
    recorder: &mut Recorder<V>,
    work: &mut Work,
) -> Result<Selected, NoMemory>
    requires { ends_at_cursor page.now ≡ false }
    ensures looks { LooksAt anywhere recorder.old recorder.new }
    ensures sees { (schema : Schema) → Sees schema V.cells recorder.old recorder.new (λ now. IfOk result (λ s. s ≡ page_of [] page.now (rows_of now kind))) }
    ensures reach { (schema : Schema) → IfOk result (λ s. ReadsWithin schema V.cells (λ now. is_row_of (reach_sorted now kind page.now [])) recorder.old recorder.new) }
{
    let low = low_edge(page);
    let high = high_edge(page);
    let rows = scan_up(alloc, kind, &low, &high, page.size as usize, recorder, work)?;
    let truncated = is_cut_short(kind, page, rows.as_slice(), &low, &high, recorder, work)?;
    flanked(kind, rows, truncated, recorder, work)
}

/// A page that ends at a cursor.
fn page_down<V: View>(
    alloc: Global,
    kind: u32,
    page: &Page,
    recorder: &mut Recorder<V>,
    work: &mut Work,
) -> Result<Selected, NoMemory>
    requires { ends_at_cursor page.now ≡ true }
    ensures looks { LooksAt anywhere recorder.old recorder.new }
    ensures sees { (schema : Schema) → Sees schema V.cells recorder.old recorder.new (λ now. IfOk result (λ s. s ≡ page_of [] page.now (rows_of now kind))) }
    ensures reach { (schema : Schema) → IfOk result (λ s. ReadsWithin schema V.cells (λ now. is_row_of (reach_sorted now kind page.now [])) recorder.old recorder.new) }
{
    let low = low_edge(page);
    let high = high_edge(page);
    let rows = scan_down(alloc, kind, &low, &high, page.size as usize, recorder, work)?;
    flanked(kind, rows, false, recorder, work)
}

/// One page of a type in the order of the ids.
pub fn page_by_id<V: View>(
    alloc: Global,
    kind: u32,
    page: &Page,
    recorder: &mut Recorder<V>,
    work: &mut Work,
) -> Result<Selected, NoMemory>
    ensures looks { LooksAt anywhere recorder.old recorder.new }
    ensures sees { (schema : Schema) → Sees schema V.cells recorder.old recorder.new (λ now. IfOk result (λ s. s ≡ page_of [] page.now (rows_of now kind))) }
    ensures reach { (schema : Schema) → IfOk result (λ s. ReadsWithin schema V.cells (λ now. is_row_of (reach_sorted now kind page.now [])) recorder.old recorder.new) }
{
    if ends_at_cursor(page) {
        page_down(alloc, kind, page, recorder, work)
    } else {
        page_up(alloc, kind, page, recorder, work)
    }
}
