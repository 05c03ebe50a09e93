ghost use Rattle.std.specs.Prelude.{◌≡◌, ◌↔◌, IfOk, Some};
ghost use Rattle.std.specs.Result.{result_ok};
ghost use Rattle.base64.specs.Engines.{url_safe_no_pad};
ghost use Rattle.base64.specs.GeneralPurpose.{decode_of};
ghost use Rattle.request_model.specs.Cursors.{IsPlaceOf, cursor_text, place_of_cursor};
ghost use Rattle.cursor_codec.specs.Places.{place_of_text};
ghost use Rattle.resource_schema.specs.declared.values.Place.{Place as PlaceValue};

use crate::places::place_in;
use crate::spelling::is_cursor_of;
use base64::DecodeAllocError;
use base64::engine::general_purpose::URL_SAFE_NO_PAD;
use ident_rules::{Bytes, NoMemory};
use json_forms::parse;
use request_model::{cursor_has_one_spelling, cursor_is_read_back};
use resource_schema::{Form, Place};
use std::alloc::Global;

/// The bytes of a text in base64url without padding.
fn decoded(alloc: Global, text: &str) -> Result<Option<Bytes>, NoMemory>
    ensures { IfOk result (λ o. o ≡ result_ok (decode_of url_safe_no_pad text.now)) }
{
    match URL_SAFE_NO_PAD.decode(alloc, text.as_bytes()) {
        Ok(bytes) => Ok(Some(Bytes::from_vec(bytes))),
        Err(DecodeAllocError::OutOfMemory) => Err(NoMemory),
        Err(DecodeAllocError::DecodeError(_)) => Ok(None),
    }
}

/// The place that stands in a text, in any spelling.
fn place_of_text(
    alloc: Global,
    text: &str,
    forms: &[(Form, bool)],
) -> Result<Option<Place>, NoMemory>
    ensures { IfOk result (λ o. o ≡ place_of_text forms.now text.now) }
{
    let Some(bytes) = decoded(alloc, text)? else {
        return Ok(None);
    };
    let Some(value) = parse(alloc, bytes.as_slice())? else {
        return Ok(None);
    };
    place_in(alloc, forms, &value)
}

/// The place of a cursor.
fn place_of_cursor(
    alloc: Global,
    text: &str,
    forms: &[(Form, bool)],
) -> Result<Option<Place>, NoMemory>
    ensures { IfOk result (λ o. o ≡ place_of_cursor forms.now text.now) }
{
    let Some(place) = place_of_text(alloc, text, forms)? else {
        return Ok(None);
    };
    if is_cursor_of(alloc, &place, text)? {
        Ok(Some(place))
    } else {
        Ok(None)
    }
}

/// The place of a cursor with one value of each form, in their order; a flag says whether the value may be null (Cursor
/// Pagination profile, "Cursors").
///
/// `None` exactly where the text is not the one that `write_cursor` gives for such a place. The one error is want of
/// memory.
pub fn read_cursor(
    alloc: Global,
    text: &str,
    forms: &[(Form, bool)],
) -> Result<Option<Place>, NoMemory>
    ensures reads { IfOk result (λ o. o ≡ place_of_cursor forms.now text.now) }
    ensures exact { IfOk result (λ o. (p : PlaceValue) → (o ≡ Some p) ↔ (IsPlaceOf forms.now p × (text.now ≡ cursor_text p))) }
{
    cursor_has_one_spelling();
    cursor_is_read_back();
    place_of_cursor(alloc, text, forms)
}
