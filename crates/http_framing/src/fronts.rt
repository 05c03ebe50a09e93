ghost use Rattle.std.specs.Prelude.{◌≡◌, ◌≤◌, ◌*◌, ℕ, List, length};
ghost use Rattle.http_model.specs.Heads.{front};
ghost use Rattle.http_framing.specs.Fronts.{FrontIs, HeadSoFarIs};

use crate::targets::{is_all_visible, is_target_visible};
use crate::texts::message_of;
use http_messages::{FIELD_LIMIT, Message};
use http_model::heads_are_decided;
use httparse::spans::{HeaderSpan, RequestSpans, parse_request};
use httparse::{Error, Status};
use ident_rules::NoMemory;
use std::alloc::Global;

/// What the first bytes of a message are.
pub enum Front {
    /// A whole head, and its spans.
    Whole(RequestSpans),
    /// A part of one.
    Open,
    /// Neither, whatever may follow.
    Never,
}

/// Judges the first bytes of a message.
pub fn judge_front(bytes: &[u8], spans: &mut [HeaderSpan]) -> Front
    requires { length bytes.now ≤ 3 * length spans.old }
    ensures { FrontIs bytes.now spans.new result }
{
    heads_are_decided();
    match parse_request(bytes, spans) {
        Ok(Status::Complete(found)) => {
            if is_all_visible(found.path.of(bytes)) {
                Front::Whole(found)
            } else {
                Front::Never
            }
        }
        Ok(Status::Partial) => {
            if is_target_visible(bytes) {
                Front::Open
            } else {
                Front::Never
            }
        }
        Err(Error::TooManyHeaders) => Front::Never,
        Err(_) => Front::Never,
    }
}

/// What stands at the front of a buffer.
#[derive(Drop)]
pub enum HeadSoFar {
    /// A whole head, and how many bytes it has.
    Head(Message, usize),
    /// A whole head of more than 64 fields.
    TooMany,
    /// A part of a head.
    Open,
    /// Neither, whatever may follow.
    Never,
    /// There was no memory for the message.
    NoMemory,
}

/// Judges the bytes at the front of a buffer, and makes the message of a whole head.
pub fn judge(alloc: Global, bytes: &[u8], spans: &mut [HeaderSpan]) -> HeadSoFar
    requires { length bytes.now ≤ 3 * length spans.old }
    ensures { (buffer : List ℕ) → bytes.now ≡ front buffer → HeadSoFarIs buffer result }
{
    match judge_front(bytes, spans) {
        Front::Open => HeadSoFar::Open,
        Front::Never => HeadSoFar::Never,
        Front::Whole(found) => {
            if FIELD_LIMIT < found.headers {
                return HeadSoFar::TooMany;
            }
            match message_of(alloc, bytes, spans, found) {
                Ok(message) => HeadSoFar::Head(message, found.len),
                Err(NoMemory) => HeadSoFar::NoMemory,
            }
        }
    }
}
