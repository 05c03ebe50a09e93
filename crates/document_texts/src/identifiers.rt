ghost use Rattle.std.specs.Prelude.{◌≡◌, ◌++◌, ◌∷◌, false, codes, map};
ghost use Rattle.json_texts.specs.Drafts.{Adds};
ghost use Rattle.json.specs.Print.{escape};
ghost use Rattle.serde_json.specs.Written.{comma_if, compact_text};
ghost use Rattle.resource_schema.specs.Kinds.{kind_name};
ghost use Rattle.document_texts.specs.Texts.{before_id, items_left, identifier_of};

use crate::names::kind_text;
use ident_rules::Id;
use json_texts::{TextDraft, id_text};
use resource_schema::Schema;

/// Goes on with what stands before an id.
fn add_opening(draft: &mut TextDraft, later: bool)
    ensures { Adds draft.old draft.new (before_id later) }
{
    if later {
        draft.add(b",{\"id\":\"");
    } else {
        draft.add(b"{\"id\":\"");
    }
}

/// Goes on with an identifier as an item of an array, or alone ("Resource Identifier Objects").
fn add_item(draft: &mut TextDraft, later: bool, schema: &Schema, target: u32, kind: &[u8], id: &Id)
    requires { kind.now ≡ escape (kind_name schema.now target) }
    ensures { Adds draft.old draft.new (comma_if later ++ compact_text (identifier_of schema.now target id.now)) }
{
    add_opening(draft, later);
    draft.add(id_text(id));
    draft.add(b"\",\"type\":\"");
    draft.add(kind);
    draft.add(b"\"}");
}

/// Goes on with the identifier of a resource.
pub fn add_identifier(draft: &mut TextDraft, schema: &Schema, target: u32, id: &Id)
    ensures { Adds draft.old draft.new (compact_text (identifier_of schema.now target id.now)) }
{
    add_item(draft, false, schema, target, kind_text(schema, target), id);
}

/// Goes on with the identifiers of resources of one type, in their order.
pub fn add_identifiers(draft: &mut TextDraft, schema: &Schema, target: u32, ids: &[Id])
    ensures { Adds draft.old draft.new (91 ∷ items_left false (map (identifier_of schema.now target) ids.now)) }
{
    let kind = kind_text(schema, target);
    draft.add(b"[");
    let mut later = false;
    for id in ids {
        add_item(draft, later, schema, target, kind, id);
        later = true;
    }
    draft.add(b"]");
}
