//! The results of the operations of a list.
ghost use Rattle.std.specs.Prelude.{◌≡◌, OnOk, option_copied};
ghost use Rattle.std.specs.List.{list_any};
ghost use Rattle.std.specs.Option.{option_and_then};
ghost use Rattle.world_cells.specs.World.{row_at};
ghost use Rattle.store_model.specs.Answer.{is_create};
ghost use Rattle.store_model.specs.Reach.{is_row_in};
ghost use Rattle.trial_steps.specs.Found.{row_of};
ghost use Rattle.trial_steps.specs.Steps.{LooksAt, Sees};
ghost use Rattle.json_texts.specs.Drafts.{Adds};
ghost use Rattle.operation_run.specs.Texts.{keys_of, result_key, result_text};

use document_texts::add_result_item;
use ident_rules::{Key, NoMemory};
use json_texts::TextDraft;
use outer_ends::Work;
use resource_schema::Schema;
use task_forms::Operation;
use view_reads::{Recorder, View};
use world_cells::{Cell, CellKey};

/// Whether an operation creates a resource.
fn is_create(operation: &Operation) -> bool
    ensures { result ≡ is_create operation.now }
{
    matches!(operation, Operation::Create { .. })
}

/// Whether one of these operations creates a resource.
pub fn has_create(operations: &[Operation]) -> bool
    ensures { result ≡ list_any is_create operations.now }
{
    operations.iter().any(|operation| is_create(operation))
}

/// The key whose row the result of an operation shows, of the key that the operation answered: that of a creation.
pub fn result_key(operation: &Operation, key: Option<Key>) -> Option<Key>
    ensures { result ≡ result_key operation.now key }
{
    if is_create(operation) { key } else { None }
}

/// Goes on with the result of a creation whose row was found in a cell.
fn add_found(draft: &mut TextDraft, later: bool, schema: &Schema, found: Option<&Cell>)
    ensures { Adds draft.old draft.new (result_text schema.now later (row_of (option_copied found.entry))) }
{
    match found {
        Some(Cell::Row(row)) => add_result_item(draft, later, schema, Some(row)),
        _ => add_result_item(draft, later, schema, None),
    }
}

/// Goes on with the result of an operation: with the row that it created, as it now is, or else with none (Atomic Operations
/// extension, "Result Objects"). Its one error is want of memory.
pub fn add_result<V: View>(
    schema: &Schema,
    created: Option<Key>,
    later: bool,
    draft: &mut TextDraft,
    recorder: &mut Recorder<V>,
    work: &mut Work,
) -> Result<(), NoMemory>
    ensures looks { LooksAt (is_row_in (keys_of created)) recorder.old recorder.new }
    ensures sees { Sees schema.now V.cells recorder.old recorder.new (λ now. OnOk result (Adds draft.old draft.new (result_text schema.now later (option_and_then (row_at now) created)))) }
{
    let Some(key) = created else {
        add_result_item(draft, later, schema, None);
        return Ok(());
    };
    let found = recorder.get(&CellKey::Row(key), work)?;
    add_found(draft, later, schema, found);
    Ok(())
}
