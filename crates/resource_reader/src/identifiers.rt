ghost use Rattle.std.specs.Prelude.{◌≡◌, IfOk, option_map, true, ℕ};
ghost use Rattle.std.specs.Str.{is_utf8};
ghost use Rattle.serde_json.specs.View.{view};
ghost use Rattle.request_model.specs.Documents.{named_in, identifier_from};
ghost use Rattle.ident_rules.specs.StepErrors.{Gives};
ghost use Rattle.resource_reader.specs.Names.{named_by_name};
ghost use Rattle.resource_reader.specs.Spots.{pointer_at};

use crate::parts::id_of;
use crate::spots::{Spot, bad_spot, refuse_in_spot};
use error_objects::{Code, Refusal};
use ident_rules::{Key, NoMemory, StepError, Text};
use json_forms::text_at;
use resource_schema::Schema;
use serde_json::Value;
use std::alloc::Global;
use task_forms::Named;

/// The text that names a resource of a type, before an id is judged.
#[derive(Clone, Copy, Debug)]
pub enum NameText<'v> {
    /// An id.
    Id(&'v str),
    /// A local id.
    Lid(&'v str),
}

/// What the members `id` and `lid` name, where exactly one of them is a text.
pub fn name_in(value: &Value) -> Option<NameText<'_>>
    ensures { (kind : ℕ) → option_map (named_by_name kind) result ≡ named_in kind (view value.now) }
{
    match text_at(value, "id") {
        Some(id) => match text_at(value, "lid") {
            Some(_) => None,
            None => Some(NameText::Id(id)),
        },
        None => Some(NameText::Lid(text_at(value, "lid")?)),
    }
}

/// A local id as a text of its own.
pub fn lid_text(alloc: Global, lid: &str) -> Result<Text, NoMemory>
    ensures text { IfOk result (λ t. t ≡ lid.now) }
    ensures utf8 { is_utf8 lid.now ≡ true }
{
    Text::from_str(alloc, lid)
}

/// A resource identifier of a type, at the spot or an item of what stands there (JSON:API 1.1, "Resource Identifier Objects").
pub fn read_identifier(
    alloc: Global,
    schema: &Schema,
    kind: u32,
    spot: Spot<'_>,
    index: Option<u32>,
    value: &Value,
) -> Result<Named, StepError<Refusal>>
    ensures { Gives result (identifier_from schema.now kind (pointer_at spot.entry index) (view value.now)) }
{
    let Some(word) = text_at(value, "type") else {
        return Err(bad_spot(alloc, spot, index));
    };
    let Some(name) = name_in(value) else {
        return Err(bad_spot(alloc, spot, index));
    };
    if word != schema.kind_name(kind) {
        return Err(refuse_in_spot(alloc, Code::WrongTarget, spot, index, "type"));
    }
    match name {
        NameText::Lid(lid) => Ok(Named::Lid(kind, lid_text(alloc, lid)?)),
        NameText::Id(text) => match id_of(text) {
            Some(id) => Ok(Named::Id(Key { kind, id })),
            None => Err(refuse_in_spot(alloc, Code::RelatedNotFound, spot, index, "id")),
        },
    }
}
