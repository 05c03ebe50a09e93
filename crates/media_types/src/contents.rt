ghost use Rattle.std.specs.Prelude.{◌≡◌, IfOk, IsOk, codes, length};
ghost use Rattle.std.specs.List.{list_all};
ghost use Rattle.request_model.specs.MediaTypes.{media_of};
ghost use Rattle.request_model.specs.Negotiation.{content, is_identity, needs_atomic, needs_body, serve, serves, field_values};
ghost use Rattle.media_types.specs.TypeParams.{params_serve};

use crate::fields::Values;
use crate::media::json_api_params;
use crate::types::{are_good, have_atomic, same_in_any_case};
use http_messages::Field;
use ident_rules::NoMemory;
use request_model::{ContentVerdict, Need, Param};
use std::alloc::Global;

fn needs_body(need: Need) -> bool
    ensures { result ≡ needs_body need }
{
    match need {
        Need::Nothing => false,
        Need::Document => true,
        Need::Atomic => true,
    }
}

fn needs_atomic(need: Need) -> bool
    ensures { result ≡ needs_atomic need }
{
    match need {
        Need::Nothing => false,
        Need::Document => false,
        Need::Atomic => true,
    }
}

// Whether a JSON:API type with these parameters serves.
fn params_serve(need: Need, params: &[Param]) -> bool
    ensures { result ≡ params_serve need params.now }
{
    are_good(params) && (!needs_atomic(need) || have_atomic(params))
}

// A JSON:API type has to be a good one, and to name the extension where that is needed; another type, or none, serves
// where no body is needed (JSON:API 1.1, "Server Responsibilities").
fn serves(alloc: Global, need: Need, value: &[u8]) -> Result<bool, NoMemory>
    ensures { IfOk result (λ b. b ≡ serves need (media_of value.now)) }
{
    match json_api_params(alloc, value)? {
        Some(params) => Ok(params_serve(need, params.as_slice())),
        None => Ok(!needs_body(need)),
    }
}

// At most one field Content-Type, whose type serves.
fn serve(alloc: Global, need: Need, fields: &[Field]) -> Result<bool, NoMemory>
    ensures serves { IfOk result (λ b. b ≡ serve need (field_values (codes "content-type") fields.now)) }
    ensures plain { (length (field_values (codes "content-type") fields.now) ≡ 1 → ⊥) → IsOk result }
{
    let mut values = Values::new(b"content-type", fields);
    let Some(value) = values.next() else {
        return Ok(!needs_body(need));
    };
    if values.next().is_some() {
        return Ok(false);
    }
    serves(alloc, need, value)
}

// No coding (RFC 9110, section 8.4.1).
fn is_identity(coding: &[u8]) -> bool
    ensures { result ≡ is_identity coding.now }
{
    same_in_any_case(coding, b"identity")
}

// No field Content-Encoding names a coding. Takes no memory.
fn is_uncoded(fields: &[Field]) -> bool
    ensures { result ≡ list_all is_identity (field_values (codes "content-encoding") fields.now) }
{
    for coding in Values::new(b"content-encoding", fields) {
        if !is_identity(coding) {
            return false;
        }
    }
    true
}

/// How the fields that describe the content are judged: the type before the coding (JSON:API 1.1, "Server
/// Responsibilities"; RFC 9110, sections 8.3, 8.4 and 15.5.16). Its one error is want of memory; without a field
/// Content-Type, and with two of them, it takes none.
pub fn content_ok(alloc: Global, fields: &[Field], need: Need) -> Result<ContentVerdict, NoMemory>
    ensures judged { IfOk result (λ j. j ≡ content fields.now need) }
    ensures plain { (length (field_values (codes "content-type") fields.now) ≡ 1 → ⊥) → IsOk result }
{
    if !serve(alloc, need, fields)? {
        return Ok(ContentVerdict::BadType);
    }
    if needs_body(need) && !is_uncoded(fields) {
        return Ok(ContentVerdict::BadEncoding);
    }
    Ok(ContentVerdict::Good)
}
