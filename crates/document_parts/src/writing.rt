ghost use Rattle.std.specs.Prelude.{◌≡◌, IfOk};
ghost use Rattle.serde_json.specs.View.{view};
ghost use Rattle.request_model.specs.Values.{value_data};

use ident_rules::NoMemory;
use resource_schema::AttrValue;
use serde_json::Value;
use std::alloc::Global;

/// The value that stands for this one in a document (JSON:API 1.1, "Attributes"). The one error is want of memory.
pub fn write_value(alloc: Global, value: &AttrValue) -> Result<Value, NoMemory>
    ensures { IfOk result (λ v. view v ≡ value_data value.now) }
{
    match value {
        AttrValue::Null => Ok(Value::Null),
        AttrValue::Int(number) => Ok(Value::from(*number)),
        AttrValue::Text(text) => Ok(Value::try_from_str(alloc, text.as_str())?),
        AttrValue::Bool(flag) => Ok(Value::Bool(*flag)),
    }
}
