ghost use Rattle.json_texts.specs.Drafts.{Adds};
ghost use Rattle.serde_json.specs.Written.{compact_text};
ghost use Rattle.store_model.specs.Resource.{linkage};

use crate::identifiers::{add_identifier, add_identifiers};
use json_texts::TextDraft;
use resource_schema::Schema;
use world_cells::Link;

/// Goes on with the linkage of a link to resources of a type ("Resource Linkage").
pub fn add_linkage(draft: &mut TextDraft, schema: &Schema, target: u32, link: &Link)
    ensures { Adds draft.old draft.new (compact_text (linkage schema.now target link.now)) }
{
    match link {
        Link::One(None) => draft.add(b"null"),
        Link::One(Some(id)) => add_identifier(draft, schema, target, id),
        Link::Many(ids) => add_identifiers(draft, schema, target, ids.as_slice()),
    }
}
