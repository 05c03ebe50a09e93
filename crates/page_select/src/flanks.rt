//! What stands beside the rows of a page.
ghost use Rattle.std.specs.Prelude.{◌≡◌, IfOk};
ghost use Rattle.resource_schema.specs.declared.schema.Schema.{Schema};
ghost use Rattle.trial_steps.specs.Steps.{LooksAt, ReadsWithin, Sees};
ghost use Rattle.world_cells.specs.declared.spans.Edge.TheVariants as edge;
ghost use Rattle.page_select.specs.Ranges.{anywhere};
ghost use Rattle.page_select.specs.Looks.{first_part};
ghost use Rattle.page_select.specs.Scans.{edge_past};
ghost use Rattle.page_select.specs.Flanks.{IsFlanked, flank_part, is_cut_short};

use crate::edges::{edge_at, edge_past, is_range};
use crate::looks::{has_row, has_row_below};
use ident_rules::{List, NoMemory};
use outer_ends::Work;
use store_model::Selected;
use task_forms::Page;
use view_reads::{Recorder, View};
use world_cells::{Edge, Row};

/// Rows of a type in the order of their ids, and whether the type has a row before the first and behind the last.
pub fn flanked<V: View>(
    kind: u32,
    rows: Vec<Row>,
    truncated: bool,
    recorder: &mut Recorder<V>,
    work: &mut Work,
) -> Result<Selected, NoMemory>
    ensures looks { LooksAt anywhere recorder.old recorder.new }
    ensures sees { (schema : Schema) → Sees schema V.cells recorder.old recorder.new (λ now. IfOk result (IsFlanked now kind rows.items truncated)) }
    ensures reach { (schema : Schema) → IfOk result (λ s. ReadsWithin schema V.cells (flank_part kind rows.items) recorder.old recorder.new) }
{
    let count = rows.len();
    if count == 0 {
        return Ok(Selected {
            rows: List::from_vec(rows),
            before: false,
            after: false,
            truncated,
        });
    }
    let before = has_row_below(kind, &rows[0].key.id, recorder, work)?;
    let past = edge_at(&rows[count - 1]);
    let after = has_row(kind, &past, &Edge::End, recorder, work)?;
    Ok(Selected {
        rows: List::from_vec(rows),
        before,
        after,
        truncated,
    })
}

/// Whether a range has more rows than those from its low edge on that a page of it shows.
pub fn is_cut_short<V: View>(
    kind: u32,
    page: &Page,
    rows: &[Row],
    low: &Edge,
    high: &Edge,
    recorder: &mut Recorder<V>,
    work: &mut Work,
) -> Result<bool, NoMemory>
    ensures looks { LooksAt anywhere recorder.old recorder.new }
    ensures sees { (schema : Schema) → Sees schema V.cells recorder.old recorder.new (λ now. IfOk result (λ b. b ≡ is_cut_short now kind page.now rows.now low.now high.now)) }
    ensures reach { (schema : Schema) → ReadsWithin schema V.cells (first_part kind (edge_past low.now rows.now) high.now) recorder.old recorder.new }
{
    if !is_range(page) || rows.len() < page.size as usize {
        return Ok(false);
    }
    has_row(kind, &edge_past(low, rows), high, recorder, work)
}
