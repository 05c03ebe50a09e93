ghost use Rattle.std.specs.Prelude.{◌≡◌, ◌++◌, codes};
ghost use Rattle.json_texts.specs.Drafts.{Adds};
ghost use Rattle.json.specs.Print.{escape};
ghost use Rattle.resource_schema.specs.Kinds.{kind_name};
ghost use Rattle.store_model.specs.Resource.{relationship_object, relationship_members};
ghost use Rattle.document_texts.specs.Texts.{opening, shown_text, shown_if, leading, closing};

use crate::fields::is_shown;
use crate::linkages::add_linkage;
use crate::names::{add_path, kind_text};
use crate::pieces::is_begun;
use ident_rules::{Key, List, Name};
use json_texts::{TextDraft, id_text, name_text};
use resource_schema::{Relationship, Schema};
use world_cells::{Link, Row};

/// Goes on with what stands before a relationship's name.
#[tactic(auto, unfolding(json::specs::Print::escape_byte))]
fn add_opening(draft: &mut TextDraft, begun: bool)
    ensures { Adds draft.old draft.new (opening (codes "relationships") begun ++ codes "\"") }
{
    if begun {
        draft.add(b",\"");
    } else {
        draft.add(b"\"relationships\":{\"");
    }
}

/// Goes on with a relationship as a member: its linkage and its links. Its resource has this type, as its name
/// stands in a string.
fn add_member(
    draft: &mut TextDraft,
    begun: bool,
    schema: &Schema,
    key: &Key,
    kind: &[u8],
    relationship: &Relationship,
    link: &Link,
)
    requires { kind.now ≡ escape (kind_name schema.now key.now.kind) }
    ensures { Adds draft.old draft.new (shown_text (codes "relationships") begun relationship.now.name (relationship_object schema.now key.now relationship.now link.now)) }
{
    let name = name_text(&relationship.name);
    let id = id_text(&key.id);
    add_opening(draft, begun);
    draft.add(name);
    draft.add(b"\":{\"data\":");
    add_linkage(draft, schema, relationship.target, link);
    draft.add(b",\"links\":{\"related\":\"/");
    add_path(draft, kind, id);
    draft.add(b"/");
    draft.add(name);
    draft.add(b"\",\"self\":\"/");
    add_path(draft, kind, id);
    draft.add(b"/relationships/");
    draft.add(name);
    draft.add(b"\"}}");
}

/// Goes on with a relationship as a member, if it is shown.
fn add_relationship(
    draft: &mut TextDraft,
    shown: bool,
    begun: bool,
    schema: &Schema,
    key: &Key,
    kind: &[u8],
    relationship: &Relationship,
    link: &Link,
)
    requires { kind.now ≡ escape (kind_name schema.now key.now.kind) }
    ensures { Adds draft.old draft.new (shown_if shown (codes "relationships") begun relationship.now.name (relationship_object schema.now key.now relationship.now link.now)) }
{
    if shown {
        add_member(draft, begun, schema, key, kind, relationship, link);
    }
}

/// Goes on with the end of the relationships, where one was added.
fn add_closing(draft: &mut TextDraft, begun: bool)
    ensures { Adds draft.old draft.new (closing begun) }
{
    if begun {
        draft.add(b"},");
    }
}

/// Goes on with the relationships that are shown, with a comma behind them, and nothing where none is (JSON:API 1.1,
/// "Relationships").
pub fn add_relationships(
    draft: &mut TextDraft,
    schema: &Schema,
    row: &Row,
    fields: &[(u32, List<Name>)],
)
    ensures { Adds draft.old draft.new (leading (codes "relationships") (relationship_members schema.now row.now fields.now)) }
{
    let kind = kind_text(schema, row.key.kind);
    let relationships = schema.relationships_of(row.key.kind);
    let mut begun = false;
    for (relationship, link) in relationships.iter().zip(row.links.as_slice()) {
        let shown = is_shown(fields, row.key.kind, relationship.name.as_str());
        add_relationship(
            draft,
            shown,
            begun,
            schema,
            &row.key,
            kind,
            relationship,
            link,
        );
        begun = is_begun(begun, shown);
    }
    add_closing(draft, begun);
}
