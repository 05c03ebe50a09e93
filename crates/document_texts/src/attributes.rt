ghost use Rattle.std.specs.Prelude.{◌++◌, codes};
ghost use Rattle.json_texts.specs.Drafts.{Adds};
ghost use Rattle.request_model.specs.Values.{value_data};
ghost use Rattle.store_model.specs.Resource.{attribute_members};
ghost use Rattle.document_texts.specs.Texts.{opening, shown_text, shown_if, leading, closing};

use crate::fields::is_shown;
use crate::pieces::is_begun;
use crate::values::add_value;
use ident_rules::{List, Name};
use json_texts::{TextDraft, name_text};
use resource_schema::{AttrValue, Attribute, Schema};
use world_cells::Row;

/// Goes on with what stands before an attribute's name.
#[tactic(auto, unfolding(json::specs::Print::escape_byte))]
fn add_opening(draft: &mut TextDraft, begun: bool)
    ensures { Adds draft.old draft.new (opening (codes "attributes") begun ++ codes "\"") }
{
    if begun {
        draft.add(b",\"");
    } else {
        draft.add(b"\"attributes\":{\"");
    }
}

/// Goes on with an attribute as a member.
fn add_member(draft: &mut TextDraft, begun: bool, attribute: &Attribute, value: &AttrValue)
    ensures { Adds draft.old draft.new (shown_text (codes "attributes") begun attribute.now.name (value_data value.now)) }
{
    add_opening(draft, begun);
    draft.add(name_text(&attribute.name));
    add_value(draft, value);
}

/// Goes on with an attribute as a member, if it is shown.
fn add_attribute(
    draft: &mut TextDraft,
    shown: bool,
    begun: bool,
    attribute: &Attribute,
    value: &AttrValue,
)
    ensures { Adds draft.old draft.new (shown_if shown (codes "attributes") begun attribute.now.name (value_data value.now)) }
{
    if shown {
        add_member(draft, begun, attribute, value);
    }
}

/// Goes on with the end of the attributes, where one was added.
fn add_closing(draft: &mut TextDraft, begun: bool)
    ensures { Adds draft.old draft.new (closing begun) }
{
    if begun {
        draft.add(b"},");
    }
}

/// Goes on with the attributes that are shown, with a comma behind them, and nothing where none is (JSON:API 1.1, "Attributes").
pub fn add_attributes(
    draft: &mut TextDraft,
    schema: &Schema,
    row: &Row,
    fields: &[(u32, List<Name>)],
)
    ensures { Adds draft.old draft.new (leading (codes "attributes") (attribute_members schema.now row.now fields.now)) }
{
    let kind = row.key.kind;
    let attributes = schema.attributes_of(kind);
    let mut begun = false;
    for (attribute, value) in attributes.iter().zip(row.values.as_slice()) {
        let shown = is_shown(fields, kind, attribute.name.as_str());
        add_attribute(draft, shown, begun, attribute, value);
        begun = is_begun(begun, shown);
    }
    add_closing(draft, begun);
}
