ghost use Rattle.std.specs.Prelude.{◌≡◌, ◌<◌, IfOk, Some, false};
ghost use Rattle.serde_json.specs.Data.{depth};
ghost use Rattle.serde_json.specs.View.{view};
ghost use Rattle.serde_json.specs.Written.{compact_text, has_float};
ghost use Rattle.json_forms.specs.Json.{json_of};
ghost use Rattle.json_forms.specs.Order.{IsInByteOrder};

use ident_rules::{Bytes, NoMemory};
use serde_json::Value;
use std::alloc::Global;

/// The text of a value that holds no float (RFC 8259, section 2), without space, with the members as the value has them.
///
/// Where the value nests at most 127 deep, they stand in byte order of their names, and `parse` gives the value back.
/// The one error is `NoMemory`.
pub fn render(alloc: Global, value: &Value) -> Result<Bytes, NoMemory>
    requires { has_float (view value.now) ≡ false }
    ensures text { IfOk result (λ b. b ≡ compact_text (view value.now)) }
    ensures reads_back { IfOk result (λ b. depth (view value.now) < 128 → json_of b ≡ Some (view value.now)) }
    ensures order { IfOk result (λ b. depth (view value.now) < 128 → IsInByteOrder (view value.now)) }
{
    Ok(Bytes::from_vec(value.to_vec(alloc)?))
}
