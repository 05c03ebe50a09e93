ghost use Rattle.std.specs.Prelude.{◌≡◌, IfOk};
ghost use Rattle.request_model.specs.declared.forms.Quoting.TheVariants.{Within};
ghost use Rattle.request_model.specs.MediaTypes.{content_from, param_of, value_of};
ghost use Rattle.media_types.specs.ParamPieces.{is_content, params_of};
ghost use Rattle.media_types.specs.PiecesLeft.{pieces_left};

use crate::pieces::{Pieces, after_byte, is_outside};
use crate::tokens::{halves_at, is_any, is_token, token_text, trim_blanks};
use ident_rules::{Bytes, List, NoMemory};
use request_model::{Param, Quoting};
use std::alloc::Global;

// Whether a byte of a quoted string is content, and no quoting.
fn is_content(at: Quoting, byte: u8) -> bool
    ensures { result ≡ is_content at byte }
{
    match at {
        Quoting::Outside => false,
        Quoting::Within => byte != b'"' && byte != b'\\',
        Quoting::Escaped => true,
    }
}

// The content of a quoted string, from the byte behind the first quote on. None where the string does not end, or ends
// early (RFC 9110, section 5.6.4).
fn content_from(alloc: Global, text: &[u8]) -> Result<Option<Bytes>, NoMemory>
    ensures { IfOk result (λ o. o ≡ content_from Within text.now) }
{
    let mut content = Vec::with_capacity(alloc, text.len())?;
    let mut at = Quoting::Within;
    for byte in text {
        if is_outside(at) {
            return Ok(None);
        }
        if is_content(at, *byte) {
            content.push(*byte)?;
        }
        at = after_byte(at, *byte);
    }
    if is_outside(at) {
        Ok(Some(Bytes::from_vec(content)))
    } else {
        Ok(None)
    }
}

// A token, or the content of a quoted string.
fn value_of(alloc: Global, text: &[u8]) -> Result<Option<Bytes>, NoMemory>
    ensures { IfOk result (λ o. o ≡ value_of text.now) }
{
    if !text.is_empty() && text[0] == b'"' {
        return content_from(alloc, &text[1..]);
    }
    if is_token(text) {
        Ok(Some(Bytes::from_slice(alloc, text)?))
    } else {
        Ok(None)
    }
}

// `token=value` (RFC 9110, section 5.6.6).
fn param_of(alloc: Global, text: &[u8]) -> Result<Option<Param>, NoMemory>
    ensures { IfOk result (λ o. o ≡ param_of text.now) }
{
    let (name, value) = halves_at(b'=', text);
    let Some(value) = value_of(alloc, value)? else {
        return Ok(None);
    };
    if !is_token(name) {
        return Ok(None);
    }
    Ok(Some(Param {
        name: token_text(alloc, name)?,
        value,
    }))
}

/// The parameters that the pieces are, but for empty ones; None where a piece is none. Its one error is want of memory.
pub fn params_of(alloc: Global, pieces: Pieces<'_>) -> Result<Option<List<Param>>, NoMemory>
    ensures { IfOk result (λ o. o ≡ params_of (pieces_left pieces.entry)) }
{
    let mut params = Vec::new(alloc);
    for piece in pieces {
        let piece = trim_blanks(piece);
        if is_any(piece) {
            match param_of(alloc, piece)? {
                Some(param) => params.push(param)?,
                None => return Ok(None),
            }
        }
    }
    Ok(Some(List::from_vec(params)))
}
