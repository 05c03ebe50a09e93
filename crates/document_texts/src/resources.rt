ghost use Rattle.std.specs.Prelude.{◌++◌, ◌∷◌, false, map};
ghost use Rattle.json_texts.specs.Drafts.{Adds};
ghost use Rattle.serde_json.specs.Written.{comma_if, compact_text};
ghost use Rattle.store_model.specs.Resource.{resource};
ghost use Rattle.document_texts.specs.Texts.{items_left};

use crate::attributes::add_attributes;
use crate::names::{add_path, kind_text};
use crate::pieces::add_comma;
use crate::relationships::add_relationships;
use ident_rules::{List, Name};
use json_texts::{TextDraft, id_text};
use resource_schema::Schema;
use world_cells::Row;

/// Goes on with the resource object of a row, with the fields that are shown (JSON:API 1.1, "Resource Objects" and "Sparse
/// Fieldsets").
pub fn add_resource(draft: &mut TextDraft, schema: &Schema, row: &Row, fields: &[(u32, List<Name>)])
    ensures { Adds draft.old draft.new (compact_text (resource schema.now row.now fields.now)) }
{
    let kind = kind_text(schema, row.key.kind);
    let id = id_text(&row.key.id);
    draft.add(b"{");
    add_attributes(draft, schema, row, fields);
    draft.add(b"\"id\":\"");
    draft.add(id);
    draft.add(b"\",\"links\":{\"self\":\"/");
    add_path(draft, kind, id);
    draft.add(b"\"},");
    add_relationships(draft, schema, row, fields);
    draft.add(b"\"type\":\"");
    draft.add(kind);
    draft.add(b"\"}");
}

/// Goes on with a resource object as an item of an array.
pub fn add_resource_item(
    draft: &mut TextDraft,
    later: bool,
    schema: &Schema,
    row: &Row,
    fields: &[(u32, List<Name>)],
)
    ensures { Adds draft.old draft.new (comma_if later ++ compact_text (resource schema.now row.now fields.now)) }
{
    add_comma(draft, later);
    add_resource(draft, schema, row, fields);
}

/// Goes on with the resource objects of rows as an array, in their order.
pub fn add_resources(
    draft: &mut TextDraft,
    schema: &Schema,
    rows: &[Row],
    fields: &[(u32, List<Name>)],
)
    ensures { Adds draft.old draft.new (91 ∷ items_left false (map (λ row. resource schema.now row fields.now) rows.now)) }
{
    draft.add(b"[");
    let mut later = false;
    for row in rows {
        add_resource_item(draft, later, schema, row, fields);
        later = true;
    }
    draft.add(b"]");
}
