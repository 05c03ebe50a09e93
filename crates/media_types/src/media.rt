ghost use Rattle.std.specs.Prelude.{◌≡◌, IfOk, IfSome, IsTrue, option_map};
ghost use Rattle.request_model.specs.MediaTypes.{bare_type_of, is_token, media_of};
ghost use Rattle.media_types.specs.TypeParams.{json_api_params};

use crate::params::params_of;
use crate::pieces::Pieces;
use crate::tokens::{halves_at, is_token, token_text, trim_blanks};
use crate::types::is_json_api;
use ident_rules::{List, NoMemory};
use request_model::{Media, Param};
use std::alloc::Global;

// `token/token`.
fn bare_type_of(text: &[u8]) -> Option<(&[u8], &[u8])>
    ensures parts { option_map (λ p. (p.0.now, p.1.now)) result ≡ bare_type_of text.now }
    ensures tokens { IfSome result (λ p. IsTrue (is_token p.0.now) × IsTrue (is_token p.1.now)) }
{
    let (main, sub) = halves_at(b'/', text);
    if is_token(main) && is_token(sub) {
        Some((main, sub))
    } else {
        None
    }
}

/// The media type that a text is (RFC 9110, section 8.3.1); None exactly where it is none. Its one error is want of
/// memory.
pub fn read_media(alloc: Global, text: &[u8]) -> Result<Option<Media>, NoMemory>
    ensures { IfOk result (λ o. o ≡ media_of text.now) }
{
    let mut pieces = Pieces::new(b';', text);
    let Some(front) = pieces.next() else {
        return Ok(None);
    };
    let Some((main, sub)) = bare_type_of(trim_blanks(front)) else {
        return Ok(None);
    };
    let Some(params) = params_of(alloc, pieces)? else {
        return Ok(None);
    };
    let main = token_text(alloc, main)?;
    let sub = token_text(alloc, sub)?;
    Ok(Some(Media { main, sub, params }))
}

/// The parameters of a text that is a media type of JSON:API; None where it is none, or another one. Takes no memory
/// but for parameters; its one error is want of memory.
pub fn json_api_params(alloc: Global, text: &[u8]) -> Result<Option<List<Param>>, NoMemory>
    ensures { IfOk result (λ o. o ≡ json_api_params (media_of text.now)) }
{
    let mut pieces = Pieces::new(b';', text);
    let Some(front) = pieces.next() else {
        return Ok(None);
    };
    let Some((main, sub)) = bare_type_of(trim_blanks(front)) else {
        return Ok(None);
    };
    if is_json_api(main, sub) {
        params_of(alloc, pieces)
    } else {
        Ok(None)
    }
}
