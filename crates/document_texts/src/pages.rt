ghost use Rattle.std.specs.Prelude.{◌++◌, ◌∷◌, [], codes, true, option_copied};
ghost use Rattle.json_texts.specs.Drafts.{Adds};
ghost use Rattle.serde_json.specs.Written.{comma_if, compact_text};
ghost use Rattle.store_model.specs.Answer.{result_data};
ghost use Rattle.store_model.specs.Resource.{object_of};
ghost use Rattle.document_texts.specs.Texts.{link_data};

use crate::documents::add_row_document;
use crate::pieces::add_comma;
use ident_rules::Text;
use json_texts::{TextDraft, add_string};
use resource_schema::Schema;
use world_cells::Row;

/// Goes on with a link, or null.
fn add_link(draft: &mut TextDraft, link: Option<&Text>)
    ensures { Adds draft.old draft.new (compact_text (link_data (option_copied link.entry))) }
{
    match link {
        Some(text) => add_string(draft, text.as_str()),
        None => draft.add(b"null"),
    }
}

/// Goes on with the links of a page (Cursor Pagination profile, "Links").
#[tactic(auto, unfolding(json::specs::Print::escape_byte))]
pub fn add_page_links(draft: &mut TextDraft, next: Option<&Text>, prev: Option<&Text>)
    ensures { Adds draft.old draft.new (compact_text (object_of ((codes "next", link_data (option_copied next.entry)) ∷ (codes "prev", link_data (option_copied prev.entry)) ∷ []))) }
{
    draft.add(b"{\"next\":");
    add_link(draft, next);
    draft.add(b",\"prev\":");
    add_link(draft, prev);
    draft.add(b"}");
}

/// Goes on with the result of an operation: of a creation, with the row as it then is.
fn add_result(draft: &mut TextDraft, schema: &Schema, created: Option<&Row>)
    ensures { Adds draft.old draft.new (compact_text (result_data schema.now true (option_copied created.entry))) }
{
    match created {
        Some(row) => add_row_document(draft, schema, row, &[]),
        None => draft.add(b"{}"),
    }
}

/// Goes on with the result of an operation as an item of an array: of a creation, with the row as it then is (Atomic Operations
/// extension, "Result Objects").
pub fn add_result_item(draft: &mut TextDraft, later: bool, schema: &Schema, created: Option<&Row>)
    ensures { Adds draft.old draft.new (comma_if later ++ compact_text (result_data schema.now true (option_copied created.entry))) }
{
    add_comma(draft, later);
    add_result(draft, schema, created);
}
