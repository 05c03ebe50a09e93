ghost use Rattle.std.specs.Prelude.{◌≡◌};
ghost use Rattle.resource_schema.specs.SchemaRules.{is_one_of};
ghost use Rattle.request_model.specs.Targets.{allow_of, allows, body_methods, body_of, allowed_methods, need_of};

use http_messages::Allow;
use request_model::Need;
use resource_schema::{Schema, Target};

/// The methods that a target answers, as Allow tells them (RFC 9110, section 10.2.1). A relationship to many has more
/// than one to one. Takes no memory.
pub fn allow_of(schema: &Schema, target: &Target) -> Allow
    ensures { result ≡ allow_of schema.now target.now }
{
    match target {
        Target::Collection(_) => Allow::Collection,
        Target::Resource(_) => Allow::Resource,
        Target::Related(_, _) => Allow::Related,
        Target::Linkage(key, rel) => {
            if schema.is_many(key.kind, *rel) {
                Allow::Many
            } else {
                Allow::One
            }
        }
        Target::Operations => Allow::Operations,
    }
}

/// Whether a method is among those of a target; the case of its letters counts (RFC 9110, section 9.1). Takes no
/// memory.
pub fn allows(allow: Allow, method: &str) -> bool
    ensures { result ≡ allows allow method.now }
{
    match allow {
        Allow::Nothing => false,
        Allow::Collection => method == "GET" || method == "HEAD" || method == "POST",
        Allow::Resource => {
            method == "GET" || method == "HEAD" || method == "PATCH" || method == "DELETE"
        }
        Allow::Related => method == "GET" || method == "HEAD",
        Allow::One => method == "GET" || method == "HEAD" || method == "PATCH",
        Allow::Many => {
            method == "GET"
                || method == "HEAD"
                || method == "PATCH"
                || method == "POST"
                || method == "DELETE"
        }
        Allow::Operations => method == "POST",
    }
}

/// Whether a method comes with a body.
fn has_body(allow: Allow, method: &str) -> bool
    ensures { result ≡ is_one_of (body_methods allow) method.now }
{
    match allow {
        Allow::Nothing | Allow::Related => false,
        Allow::Collection | Allow::Operations => method == "POST",
        Allow::Resource | Allow::One => method == "PATCH",
        Allow::Many => method == "PATCH" || method == "POST" || method == "DELETE",
    }
}

/// What a body is, where there is one.
fn body_of(allow: Allow) -> Need
    ensures { result ≡ body_of allow }
{
    match allow {
        Allow::Operations => Need::Atomic,
        _ => Need::Document,
    }
}

/// What a request must have as its content (RFC 9110, section 9.3): a document, a document of the Atomic Operations
/// extension at the operations, or nothing. Takes no memory.
pub fn need_of(allow: Allow, method: &str) -> Need
    ensures { result ≡ need_of allow method.now }
{
    if has_body(allow, method) {
        body_of(allow)
    } else {
        Need::Nothing
    }
}
