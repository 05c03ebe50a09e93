//! The documents of rows.
ghost use Rattle.std.specs.Prelude.{◌≡◌, IfOk, option_copied};
ghost use Rattle.serde_json.specs.Written.{compact_text};
ghost use Rattle.store_model.specs.Answer.{row_body, row_data};

use document_texts::add_row_document;
use ident_rules::{Bytes, NoMemory};
use json_texts::TextDraft;
use resource_schema::Schema;
use std::alloc::Global;
use world_cells::Row;

/// The room that the text of one resource begins with; a longer one takes more.
const ROOM: usize = 512;

/// The document of a row, with all its fields (JSON:API 1.1, "Document Structure").
fn row_text(alloc: Global, schema: &Schema, row: &Row) -> Result<Bytes, NoMemory>
    ensures { IfOk result (λ b. b ≡ compact_text (row_data schema.now row.now)) }
{
    let mut draft = TextDraft::with_room(alloc, ROOM);
    add_row_document(&mut draft, schema, row, &[]);
    draft.finish()
}

/// The document of a row, if there is one.
pub fn row_body(alloc: Global, schema: &Schema, row: Option<&Row>) -> Result<Bytes, NoMemory>
    ensures { IfOk result (λ b. b ≡ row_body schema.now (option_copied row.entry)) }
{
    match row {
        Some(row) => row_text(alloc, schema, row),
        None => Ok(Bytes::from_vec(Vec::new(alloc))),
    }
}
