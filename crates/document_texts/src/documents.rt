ghost use Rattle.std.specs.Prelude.{codes};
ghost use Rattle.serde_json.specs.Data.{null};
ghost use Rattle.serde_json.specs.Written.{compact_text};
ghost use Rattle.error_objects.specs.ErrorReply.{only};
ghost use Rattle.store_model.specs.Resource.{linkage, resource};
ghost use Rattle.json_texts.specs.Drafts.{Adds};

use crate::linkages::add_linkage;
use crate::resources::add_resource;
use ident_rules::{List, Name};
use json_texts::TextDraft;
use resource_schema::Schema;
use world_cells::{Link, Row};

/// Goes on with the document of a row (JSON:API 1.1, "Document Structure").
#[tactic(auto, unfolding(json::specs::Print::escape_byte))]
pub fn add_row_document(
    draft: &mut TextDraft,
    schema: &Schema,
    row: &Row,
    fields: &[(u32, List<Name>)],
)
    ensures { Adds draft.old draft.new (compact_text (only (codes "data") (resource schema.now row.now fields.now))) }
{
    draft.add(b"{\"data\":");
    add_resource(draft, schema, row, fields);
    draft.add(b"}");
}

/// Goes on with the document without a resource.
#[tactic(auto, unfolding(json::specs::Print::escape_byte))]
pub fn add_null_document(draft: &mut TextDraft)
    ensures { Adds draft.old draft.new (compact_text (only (codes "data") null)) }
{
    draft.add(b"{\"data\":null}");
}

/// Goes on with the document of a linkage.
#[tactic(auto, unfolding(json::specs::Print::escape_byte))]
pub fn add_linkage_document(draft: &mut TextDraft, schema: &Schema, target: u32, link: &Link)
    ensures { Adds draft.old draft.new (compact_text (only (codes "data") (linkage schema.now target link.now))) }
{
    draft.add(b"{\"data\":");
    add_linkage(draft, schema, target, link);
    draft.add(b"}");
}
