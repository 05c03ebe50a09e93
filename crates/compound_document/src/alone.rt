//! The reply with a resource beside which nothing is asked for: its text is written from the row where it stands.
ghost use Rattle.std.specs.Prelude.{◌≡◌, [], ◌∷◌, IfOk, Some};
ghost use Rattle.std.specs.Option.{option_copied};
ghost use Rattle.world_cells.specs.World.{row_at};
ghost use Rattle.store_model.specs.Reach.{is_row_in};
ghost use Rattle.trial_steps.specs.Found.{row_of};
ghost use Rattle.trial_steps.specs.Steps.{LooksAt, Sees};
ghost use Rattle.compound_document.specs.Fetches.{alone_reply};

use crate::replies::{not_found, ok_reply};
use crate::texts::alone_text;
use http_messages::{Content, Reply};
use ident_rules::{Key, NoMemory};
use outer_ends::Work;
use resource_schema::Schema;
use std::alloc::Global;
use task_forms::Query;
use view_reads::{Recorder, View};
use world_cells::{Cell, CellKey, Row};

/// The reply with a row.
fn row_reply(alloc: Global, schema: &Schema, query: &Query, row: &Row) -> Result<Reply, NoMemory>
    ensures { IfOk result (λ r. r ≡ alone_reply schema.now query.now (Some row.now)) }
{
    let body = alone_text(alloc, schema, query, row)?;
    Ok(ok_reply(Content::Plain, body))
}

/// The reply with the row in a cell, if it has one.
fn cell_reply(
    alloc: Global,
    schema: &Schema,
    query: &Query,
    found: Option<&Cell>,
) -> Result<Reply, NoMemory>
    ensures { IfOk result (λ r. r ≡ alone_reply schema.now query.now (row_of (option_copied found.entry))) }
{
    match found {
        Some(Cell::Row(row)) => row_reply(alloc, schema, query, row),
        _ => not_found(alloc),
    }
}

/// The reply with the row at a key alone, or that it is not there. No copy of the row is made.
pub fn alone_reply<V: View>(
    alloc: Global,
    schema: &Schema,
    key: &Key,
    query: &Query,
    recorder: &mut Recorder<V>,
    work: &mut Work,
) -> Result<Reply, NoMemory>
    ensures looks { LooksAt (is_row_in (key.now ∷ [])) recorder.old recorder.new }
    ensures sees { Sees schema.now V.cells recorder.old recorder.new (λ now. IfOk result (λ r. r ≡ alone_reply schema.now query.now (row_at now key.now))) }
{
    let found = recorder.get(&CellKey::Row(*key), work)?;
    cell_reply(alloc, schema, query, found)
}
