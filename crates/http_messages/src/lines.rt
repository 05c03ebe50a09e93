ghost use Rattle.std.specs.Prelude.{◌≡◌};
ghost use Rattle.http_messages.specs.ReplyText.{reason, content_line, allow_line, close_line, body_text};

use crate::{Allow, Content, Reply};

/// The reason phrase of a status.
#[tactic(auto, unfolding(crate::specs::ReplyText::reason))]
pub fn reason_of(status: u16) -> &'static [u8]
    ensures { result.now ≡ reason status }
{
    match status {
        200 => b"OK",
        201 => b"Created",
        204 => b"No Content",
        400 => b"Bad Request",
        403 => b"Forbidden",
        404 => b"Not Found",
        405 => b"Method Not Allowed",
        406 => b"Not Acceptable",
        409 => b"Conflict",
        413 => b"Content Too Large",
        415 => b"Unsupported Media Type",
        417 => b"Expectation Failed",
        422 => b"Unprocessable Content",
        431 => b"Request Header Fields Too Large",
        500 => b"Internal Server Error",
        501 => b"Not Implemented",
        502 => b"Bad Gateway",
        503 => b"Service Unavailable",
        507 => b"Insufficient Storage",
        _ => b"",
    }
}

/// The line of Content-Type, or nothing.
pub fn content_of(content: Content) -> &'static [u8]
    ensures { result.now ≡ content_line content }
{
    match content {
        Content::Nothing => b"",
        Content::Plain => b"Content-Type: application/vnd.api+json\r\n",
        Content::Page =>
            b"Content-Type: application/vnd.api+json;profile=\"https://jsonapi.org/profiles/ethanresnick/cursor-pagination/\"\r\n",
        Content::Atomic =>
            b"Content-Type: application/vnd.api+json;ext=\"https://jsonapi.org/ext/atomic\"\r\n",
    }
}

/// The line of Allow, or nothing.
pub fn allow_of(allow: Allow) -> &'static [u8]
    ensures { result.now ≡ allow_line allow }
{
    match allow {
        Allow::Nothing => b"",
        Allow::Collection => b"Allow: GET, HEAD, POST\r\n",
        Allow::Resource => b"Allow: GET, HEAD, PATCH, DELETE\r\n",
        Allow::Related => b"Allow: GET, HEAD\r\n",
        Allow::One => b"Allow: GET, HEAD, PATCH\r\n",
        Allow::Many => b"Allow: GET, HEAD, PATCH, POST, DELETE\r\n",
        Allow::Operations => b"Allow: POST\r\n",
    }
}

/// The line that closes the connection, or nothing.
pub fn closing_of(close: bool) -> &'static [u8]
    ensures { result.now ≡ close_line close }
{
    if close { b"Connection: close\r\n" } else { b"" }
}

/// The body as it is written.
pub fn body_of(reply: &Reply, head_only: bool) -> &[u8]
    ensures { result.now ≡ body_text reply.now head_only }
{
    if head_only || reply.status == 204 {
        b""
    } else {
        reply.body.as_slice()
    }
}
