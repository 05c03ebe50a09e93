ghost use Rattle.std.specs.Prelude.{◌≡◌, option_map, Option, Some, None};
ghost use Rattle.serde_json.specs.View.{view, members_view};
ghost use Rattle.ident_rules.specs.Id.{is_id};
ghost use Rattle.request_model.specs.Words.{result_map, some_if};
ghost use Rattle.document_parts.specs.Pointers.{member_pointer};
ghost use Rattle.request_model.specs.Documents.{object_at, text_member};
ghost use Rattle.ident_rules.specs.StepErrors.{Gives};

use crate::refusals::{bad_document, refuse_in};
use error_objects::{Code, Refusal};
use ident_rules::{Id, StepError, read_id};
use json_forms::member;
use serde_json::{Map, Value};
use std::alloc::Global;

/// The id that the text is, where it keeps the rule of ids.
pub fn id_of(text: &str) -> Option<Id>
    ensures { result ≡ some_if (is_id text.now) text.now }
{
    read_id(text).ok()
}

/// The members of an object.
pub fn object_at<'v>(
    alloc: Global,
    at: &str,
    value: &'v Value,
) -> Result<&'v Map<String, Value>, StepError<Refusal>>
    ensures { Gives (result_map (λ m. members_view m.now.entries) result) (object_at at.now (view value.now)) }
{
    match value {
        Value::Object(members) => Ok(members),
        _ => Err(bad_document(alloc, at)),
    }
}

/// The members of the object that is the member of that name.
pub fn object_in<'v>(
    alloc: Global,
    at: &str,
    name: &str,
    value: &'v Value,
) -> Result<&'v Map<String, Value>, StepError<Refusal>>
    ensures { Gives (result_map (λ m. members_view m.now.entries) result) (object_at (member_pointer at.now name.now) (view value.now)) }
{
    match value {
        Value::Object(members) => Ok(members),
        _ => Err(refuse_in(alloc, Code::BadDocument, at, name)),
    }
}

/// A member that is a text.
pub fn text_member<'v>(
    alloc: Global,
    at: &str,
    name: &str,
    value: &'v Value,
) -> Result<&'v str, StepError<Refusal>>
    ensures { Gives (result_map (λ t. t.now) result) (text_member at.now name.now (view value.now)) }
{
    match member(value, name) {
        None => Err(bad_document(alloc, at)),
        Some(Value::String(text)) => Ok(text.as_str()),
        Some(_) => Err(refuse_in(alloc, Code::BadDocument, at, name)),
    }
}
