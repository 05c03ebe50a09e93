ghost use Rattle.std.specs.Prelude.{◌≡◌, ◌∷◌, [], IfOk, IsOk, codes, filter, not};
ghost use Rattle.std.specs.List.{join_with_byte};
ghost use Rattle.request_model.specs.Words.{comma};
ghost use Rattle.request_model.specs.MediaTypes.{unquoted_pieces};
ghost use Rattle.request_model.specs.Negotiation.{acceptable, is_named, field_values};
ghost use Rattle.media_types.specs.Elements.{accepts, element_of, types_of};
ghost use Rattle.media_types.specs.TypeParams.{are_good, without_q};
ghost use Rattle.media_types.specs.ValuesLeft.{values_left};

use crate::fields::Values;
use crate::media::json_api_params;
use crate::pieces::Pieces;
use crate::types::{are_good, is_named};
use http_messages::Field;
use ident_rules::{List, NoMemory};
use request_model::Param;
use std::alloc::Global;

/// How an element of Accept is judged.
#[derive(Clone, Copy)]
pub enum Element {
    /// It is no media type, or none of JSON:API.
    Other,
    /// It is a type of JSON:API that the server does not give.
    Refused,
    /// It is a type of JSON:API that the server gives.
    Accepted,
}

fn without_named(name: &[u8], params: Vec<Param>) -> Vec<Param>
    ensures { result.items ≡ filter (λ p. not (is_named name.now p)) params.items }
{
    let mut params = params;
    params.retain(|param| !is_named(name, param));
    params
}

// Whether parameters are good ones, the weight left aside (RFC 9110, section 12.4.2).
fn are_accepted(params: List<Param>) -> bool
    ensures { result ≡ are_good (without_q params) }
{
    let params = without_named(b"q", params.into_vec());
    are_good(params.as_slice())
}

fn element_of(alloc: Global, text: &[u8]) -> Result<Element, NoMemory>
    ensures { IfOk result (λ e. e ≡ element_of text.now) }
{
    let Some(params) = json_api_params(alloc, text)? else {
        return Ok(Element::Other);
    };
    if are_accepted(params) {
        Ok(Element::Accepted)
    } else {
        Ok(Element::Refused)
    }
}

// Whether some element is accepted, or none is refused.
fn accepts(alloc: Global, text: &[u8]) -> Result<bool, NoMemory>
    ensures { IfOk result (λ b. b ≡ accepts (types_of (unquoted_pieces comma text.now))) }
{
    let mut some_refused = false;
    for element in Pieces::new(b',', text) {
        match element_of(alloc, element)? {
            Element::Other => {}
            Element::Refused => some_refused = true,
            Element::Accepted => return Ok(true),
        }
    }
    Ok(!some_refused)
}

// The texts with commas between them.
fn join(alloc: Global, first: &[u8], others: Values<'_>) -> Result<Vec<u8>, NoMemory>
    ensures { IfOk result (λ v. v.items ≡ join_with_byte comma (first.now ∷ values_left others.entry)) }
{
    let mut joined = Vec::from_slice(alloc, first)?;
    for text in others {
        joined.push(b',')?;
        joined.extend_from_slice(text)?;
    }
    Ok(joined)
}

/// Whether Accept leaves a type that the server gives: some type of JSON:API there is a good one, or there is none
/// (JSON:API 1.1, "Server Responsibilities"; RFC 9110, section 12.5.1). Weights are left aside, and so are elements that
/// are no media type. Its one error is want of memory; without the field it takes none.
pub fn accept_ok(alloc: Global, fields: &[Field]) -> Result<bool, NoMemory>
    ensures judged { IfOk result (λ b. b ≡ acceptable fields.now) }
    ensures plain { field_values (codes "accept") fields.now ≡ [] → IsOk result }
{
    let mut values = Values::new(b"accept", fields);
    let Some(first) = values.next() else {
        return Ok(true);
    };
    let joined = join(alloc, first, values)?;
    accepts(alloc, joined.as_slice())
}
