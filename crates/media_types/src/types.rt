ghost use Rattle.std.specs.Prelude.{◌≡◌, ◌&&◌, ◌||◌, codes, filter, not};
ghost use Rattle.std.specs.List.{list_all, list_any};
ghost use Rattle.std.specs.Str.{str_eq_ignore_ascii_case};
ghost use Rattle.request_model.specs.Words.{parts_at, is_any, space};
ghost use Rattle.request_model.specs.Negotiation.{is_atomic, is_named};
ghost use Rattle.media_types.specs.TypeParams.{are_good, uris_of};

use crate::tokens::is_any;
use request_model::Param;

/// Whether two texts are equal in any case.
pub fn same_in_any_case(text: &[u8], other: &[u8]) -> bool
    ensures { result ≡ str_eq_ignore_ascii_case text.now other.now }
{
    text.eq_ignore_ascii_case(other)
}

/// Whether a type and its subtype are those of JSON:API, in any case (JSON:API 1.1, "JSON:API Media Type").
pub fn is_json_api(main: &[u8], sub: &[u8]) -> bool
    ensures { result ≡ (str_eq_ignore_ascii_case main.now (codes "application") && str_eq_ignore_ascii_case sub.now (codes "vnd.api+json")) }
{
    same_in_any_case(main, b"application") && same_in_any_case(sub, b"vnd.api+json")
}

/// Whether a parameter has this name, in any case.
pub fn is_named(name: &[u8], param: &Param) -> bool
    ensures { result ≡ is_named name.now param.now }
{
    same_in_any_case(param.name.as_str().as_bytes(), name)
}

// The extension of the atomic operations.
fn is_atomic(uri: &[u8]) -> bool
    ensures { result ≡ is_atomic uri.now }
{
    uri == b"https://jsonapi.org/ext/atomic".as_slice()
}

// Whether no URI between the spaces is an extension that is not supported.
fn all_atomic(uris: &[u8]) -> bool
    ensures { result ≡ list_all is_atomic (filter is_any (parts_at space uris.now)) }
{
    uris.split(|byte| *byte == b' ')
        .filter(|uri| is_any(uri))
        .all(|uri| is_atomic(uri))
}

// Whether a URI between the spaces is the extension of the atomic operations.
fn any_atomic(uris: &[u8]) -> bool
    ensures { result ≡ list_any is_atomic (filter is_any (parts_at space uris.now)) }
{
    uris.split(|byte| *byte == b' ')
        .filter(|uri| is_any(uri))
        .any(|uri| is_atomic(uri))
}

// Whether no extension is one that is not supported.
fn have_atomic_alone(params: &[Param]) -> bool
    ensures { result ≡ list_all is_atomic (uris_of params.now) }
{
    params.iter().all(|param| !is_named(b"ext", param) || all_atomic(param.value.as_slice()))
}

/// Whether the extension of the atomic operations is there (JSON:API 1.1, "Extensions").
pub fn have_atomic(params: &[Param]) -> bool
    ensures { result ≡ list_any is_atomic (uris_of params.now) }
{
    params.iter().any(|param| is_named(b"ext", param) && any_atomic(param.value.as_slice()))
}

// Whether there is no parameter but `ext` and `profile`.
fn are_known(params: &[Param]) -> bool
    ensures { result ≡ list_all (λ p. is_named (codes "ext") p || is_named (codes "profile") p) params.now }
{
    params.iter().all(|param| is_named(b"ext", param) || is_named(b"profile", param))
}

/// Whether there is no parameter but `ext` and `profile`, and no extension that is not supported (JSON:API 1.1, "Server
/// Responsibilities").
pub fn are_good(params: &[Param]) -> bool
    ensures { result ≡ are_good params.now }
{
    are_known(params) && have_atomic_alone(params)
}
