ghost use Rattle.std.specs.Prelude.{◌≡◌, ℕ, length, map, IfOk, IsUtf8, All, List as Items};
ghost use Rattle.http_model.specs.Messages.{field_parts, IsMessageHead};
ghost use Rattle.httparse.specs.Grammar.{RequestHead};
ghost use Rattle.httparse.specs.Spans.{IsRequestAt, IsHeaderWithin, span_bytes, header_bytes};
ghost use Rattle.http_framing.specs.Fronts.{WholeHead};

use http_messages::{Field, Message};
use httparse::spans::{HeaderSpan, RequestSpans};
use ident_rules::{Bytes, List, NoMemory, Text};
use std::alloc::Global;

// A text of bytes that are UTF-8.
fn text_of(alloc: Global, bytes: &[u8]) -> Result<Text, NoMemory>
    requires { IsUtf8 bytes.now }
    ensures { IfOk result (λ t. t ≡ bytes.now) }
{
    match str::from_utf8(bytes) {
        Ok(text) => Text::from_str(alloc, text),
        Err(_) => unreachable!(),
    }
}

// The fields that the spans cover.
fn fields_of(alloc: Global, bytes: &[u8], headers: &[HeaderSpan]) -> Result<List<Field>, NoMemory>
    requires within { All (IsHeaderWithin (length bytes.now)) headers.now }
    requires text { All (λ h. IsUtf8 (span_bytes bytes.now h.name)) headers.now }
    ensures { IfOk result (λ fields. map field_parts fields ≡ map (header_bytes bytes.now) headers.now) }
{
    let mut fields = Vec::with_capacity(alloc, headers.len())?;
    for header in headers {
        let name = text_of(alloc, header.name.of(bytes))?;
        let value = Bytes::from_slice(alloc, header.value.of(bytes))?;
        if fields.push(Field { name, value }).is_err() {
            return Err(NoMemory);
        }
    }
    Ok(List::from_vec(fields))
}

/// The message of a head, with no body. Its one error is want of memory.
pub fn message_of(
    alloc: Global,
    bytes: &[u8],
    headers: &[HeaderSpan],
    spans: RequestSpans,
) -> Result<Message, NoMemory>
    requires { WholeHead bytes.now headers.now spans }
    ensures { IfOk result (λ m. (h : RequestHead) → IsRequestAt bytes.now headers.now spans h → IsMessageHead m h) }
{
    let method = text_of(alloc, spans.method.of(bytes))?;
    let target = text_of(alloc, spans.path.of(bytes))?;
    let fields = fields_of(alloc, bytes, &headers[..spans.headers])?;
    let body = Bytes::from_slice(alloc, b"")?;
    Ok(Message {
        method,
        target,
        minor: spans.version,
        fields,
        body,
    })
}
