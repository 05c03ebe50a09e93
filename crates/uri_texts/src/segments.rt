ghost use Rattle.std.specs.Prelude.{◌≡◌, ◌≢◌, All, IfOk, IsOk, option_map};
ghost use Rattle.std.specs.Cow.{cow_str_bytes};
ghost use Rattle.percent_encoding.specs.Percent.{percent_sign};
ghost use Rattle.request_model.specs.Targets.{decode_segment};

use ident_rules::{NoMemory, Text};
use percent_encoding::{DecodeError, percent_decode};
use std::alloc::Global;
use std::borrow::CowStr;

/// What `decode_segment` gives, borrowed from the segment where it has no `%`: memory is taken for the others alone.
pub fn read_segment(alloc: Global, segment: &str) -> Result<Option<CowStr<'_>>, NoMemory>
    ensures text { IfOk result (λ o. option_map cow_str_bytes o ≡ decode_segment segment.now) }
    ensures plain { All (λ b. b ≢ percent_sign) segment.now → IsOk result }
{
    match percent_decode(segment.as_bytes()).decode_utf8(alloc) {
        Ok(text) => Ok(Some(text)),
        Err(DecodeError::OutOfMemory) => Err(NoMemory),
        Err(DecodeError::Utf8(_)) => Ok(None),
    }
}

/// The text that a segment of a path stands for, its escapes decoded (RFC 3986, section 2.1); None exactly where the
/// decoded bytes are no UTF-8. A `%` that no two hexadecimal digits follow stands as it is. Its one error is want of
/// memory.
pub fn decode_segment(alloc: Global, segment: &str) -> Result<Option<Text>, NoMemory>
    ensures { IfOk result (λ o. o ≡ decode_segment segment.now) }
{
    match read_segment(alloc, segment)? {
        Some(text) => Ok(Some(Text::from_string(text.into_owned(alloc)?))),
        None => Ok(None),
    }
}
