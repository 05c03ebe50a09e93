//! Looks for one row between two edges.
ghost use Rattle.std.specs.Prelude.{◌≡◌, IfOk, is_some};
ghost use Rattle.std.specs.Option.{option_map};
ghost use Rattle.resource_schema.specs.declared.schema.Schema.{Schema};
ghost use Rattle.world_cells.specs.declared.spans.Edge.TheVariants as edge;
ghost use Rattle.world_cells.specs.declared.spans.Span.TheVariants as span;
ghost use Rattle.store_model.specs.Pages.{first_item};
ghost use Rattle.view_reads.specs.Recording.{pair_now};
ghost use Rattle.trial_steps.specs.Steps.{LooksAt, ReadsWithin, Sees};
ghost use Rattle.page_select.specs.Ranges.{anywhere, row_in, range, BeginsWith, EndsWith};
ghost use Rattle.page_select.specs.Looks.{first_part, last_part};

use ident_rules::{Id, NoMemory};
use outer_ends::Work;
use std::alloc::Global;
use view_reads::{Recorder, View};
use world_cells::{Cell, CellKey, Edge, Row, Span};

/// A copy of the row that was found, if one was.
fn copied_row(alloc: Global, found: Option<(&CellKey, &Cell)>) -> Result<Option<Row>, NoMemory>
    ensures { IfOk result (λ row. row ≡ row_in (option_map pair_now found.entry)) }
{
    match found {
        Some((_, Cell::Row(row))) => Ok(Some(row.copy(alloc)?)),
        _ => Ok(None),
    }
}

/// A copy of the first row of a type between two edges, if there is one.
pub fn first_row<V: View>(
    alloc: Global,
    kind: u32,
    low: &Edge,
    high: &Edge,
    recorder: &mut Recorder<V>,
    work: &mut Work,
) -> Result<Option<Row>, NoMemory>
    ensures looks { LooksAt anywhere recorder.old recorder.new }
    ensures sees { (schema : Schema) → Sees schema V.cells recorder.old recorder.new (λ now. IfOk result (BeginsWith now kind low.now high.now)) }
    ensures reach { (schema : Schema) → ReadsWithin schema V.cells (first_part kind low.now high.now) recorder.old recorder.new }
{
    let span = Span::Rows {
        kind,
        low: *low,
        high: *high,
    };
    let found = recorder.first_in(&span, work)?;
    copied_row(alloc, found)
}

/// A copy of the last row of a type between two edges, if there is one.
pub fn last_row<V: View>(
    alloc: Global,
    kind: u32,
    low: &Edge,
    high: &Edge,
    recorder: &mut Recorder<V>,
    work: &mut Work,
) -> Result<Option<Row>, NoMemory>
    ensures looks { LooksAt anywhere recorder.old recorder.new }
    ensures sees { (schema : Schema) → Sees schema V.cells recorder.old recorder.new (λ now. IfOk result (EndsWith now kind low.now high.now)) }
    ensures reach { (schema : Schema) → ReadsWithin schema V.cells (last_part kind low.now high.now) recorder.old recorder.new }
{
    let span = Span::Rows {
        kind,
        low: *low,
        high: *high,
    };
    let found = recorder.last_in(&span, work)?;
    copied_row(alloc, found)
}

/// Whether a type has a row between two edges, looked for from the low one.
pub fn has_row<V: View>(
    kind: u32,
    low: &Edge,
    high: &Edge,
    recorder: &mut Recorder<V>,
    work: &mut Work,
) -> Result<bool, NoMemory>
    ensures looks { LooksAt anywhere recorder.old recorder.new }
    ensures sees { (schema : Schema) → Sees schema V.cells recorder.old recorder.new (λ now. IfOk result (λ b. b ≡ is_some (first_item (range now (span.Rows kind low.now high.now))))) }
    ensures reach { (schema : Schema) → ReadsWithin schema V.cells (first_part kind low.now high.now) recorder.old recorder.new }
{
    let span = Span::Rows {
        kind,
        low: *low,
        high: *high,
    };
    let found = recorder.first_in(&span, work)?;
    Ok(found.is_some())
}

/// Whether a type has a row below an id, looked for from there.
pub fn has_row_below<V: View>(
    kind: u32,
    id: &Id,
    recorder: &mut Recorder<V>,
    work: &mut Work,
) -> Result<bool, NoMemory>
    ensures looks { LooksAt anywhere recorder.old recorder.new }
    ensures sees { (schema : Schema) → Sees schema V.cells recorder.old recorder.new (λ now. IfOk result (λ b. b ≡ is_some (first_item (range now (span.Rows kind edge.End (edge.Open id.now)))))) }
    ensures reach { (schema : Schema) → ReadsWithin schema V.cells (last_part kind edge.End (edge.Open id.now)) recorder.old recorder.new }
{
    let span = Span::Rows {
        kind,
        low: Edge::End,
        high: Edge::Open(*id),
    };
    let found = recorder.last_in(&span, work)?;
    Ok(found.is_some())
}
