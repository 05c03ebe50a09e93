ghost use Rattle.std.specs.Prelude.{◌≡◌, IfOk, Some, None, if◌then◌else◌};
ghost use Rattle.resource_schema.specs.declared.values.AttrValue.TheVariants as value;
ghost use Rattle.serde_json.specs.View.{view};
ghost use Rattle.resource_schema.specs.Forms.{is_of};
ghost use Rattle.request_model.specs.Values.{value_from};

use ident_rules::{NoMemory, Text};
use json_forms::int_of;
use resource_schema::{AttrValue, Form, TEXT_LIMIT};
use serde_json::Value;
use std::alloc::Global;

/// The text, where the attribute is one and the text is not too long.
fn text_value(alloc: Global, form: Form, text: &str) -> Result<Option<AttrValue>, NoMemory>
    ensures { IfOk result (λ o. o ≡ (if is_of form (value.Text text.now) then Some (value.Text text.now) else None)) }
{
    match form {
        Form::Text if text.len() <= TEXT_LIMIT => {
            Ok(Some(AttrValue::Text(Text::from_str(alloc, text)?)))
        }
        _ => Ok(None),
    }
}

/// The value of an attribute of that form, which may be null where `nullable` says so, that stands in a document (JSON:API
/// 1.1, "Attributes").
///
/// An integer is a number that an `i64` holds, without fraction and exponent; a text has at most `TEXT_LIMIT` bytes. `None`
/// exactly where the value is not of the form. The one error is want of memory.
pub fn read_value(
    alloc: Global,
    form: Form,
    nullable: bool,
    value: &Value,
) -> Result<Option<AttrValue>, NoMemory>
    ensures { IfOk result (λ o. o ≡ value_from form nullable (view value.now)) }
{
    match value {
        Value::Null if nullable => Ok(Some(AttrValue::Null)),
        Value::Bool(flag) if form == Form::Bool => Ok(Some(AttrValue::Bool(*flag))),
        Value::Number(_) if form == Form::Int => Ok(int_of(value).map(AttrValue::Int)),
        Value::String(text) => text_value(alloc, form, text.as_str()),
        _ => Ok(None),
    }
}
