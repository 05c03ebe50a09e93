ghost use Rattle.std.specs.Prelude.{◌≡◌, IfOk, option_map};
ghost use Rattle.serde_json.specs.Find.{get, as_str};
ghost use Rattle.serde_json.specs.View.{view};
ghost use Rattle.json_forms.specs.Json.{json_of, int_of, text_at};

use ident_rules::NoMemory;
use serde_json::Value;
use std::alloc::Global;

/// The value of a JSON text (RFC 8259, section 2).
///
/// `None` exactly where the bytes are no JSON text that serde_json's specification reads: they are not UTF-8, do not
/// meet the grammar, nest deeper than 127, or hold a number past the finite floats. Of two members with one name the last
/// stays. `-0` and an integer past 64 bits are floats. The one error is `NoMemory`.
pub fn parse(alloc: Global, bytes: &[u8]) -> Result<Option<Value>, NoMemory>
    ensures { IfOk result (λ o. option_map view o ≡ json_of bytes.now) }
{
    match Value::from_slice(alloc, bytes) {
        Ok(value) => Ok(Some(value)),
        Err(error) if error.is_memory() => Err(NoMemory),
        Err(_) => Ok(None),
    }
}

/// The member of an object with this name (RFC 8259, section 4).
///
/// `None` exactly where the value is no object, or has no such member. Takes no memory.
pub fn member<'v>(value: &'v Value, name: &str) -> Option<&'v Value>
    ensures { option_map (λ v. view v.now) result ≡ get name.now (view value.now) }
{
    value.get(name)
}

/// The text of a string (RFC 8259, section 7), and `None` exactly for every other value. Takes no memory.
pub fn text_of(value: &Value) -> Option<&str>
    ensures { option_map (λ t. t.now) result ≡ as_str (view value.now) }
{
    value.as_str()
}

/// The text of the string that is the member of an object with this name (RFC 8259, section 4).
///
/// `None` exactly where there is no such member, or it is no string. Takes no memory.
pub fn text_at<'v>(value: &'v Value, name: &str) -> Option<&'v str>
    ensures { option_map (λ t. t.now) result ≡ text_at name.now (view value.now) }
{
    text_of(member(value, name)?)
}

/// The integer that a number is (RFC 8259, section 6).
///
/// `None` exactly where the value is no number, is a float, or is no `i64`. Takes no memory.
pub fn int_of(value: &Value) -> Option<i64>
    ensures { result ≡ int_of (view value.now) }
{
    value.as_i64()
}
