ghost use Rattle.std.specs.Prelude.{◌≡◌, ◌+◌, ◌<◌, min, false, IsTrue};
ghost use Rattle.std.specs.List.{list_all};
ghost use Rattle.std.specs.Char.{is_ascii_digit};
ghost use Rattle.std.specs.Str.Parse.{digits_value};
ghost use Rattle.http_model.specs.Framings.{breaks_host, has_two_framings, has_bad_coding, has_unknown_coding, has_bad_length, has_long_body, has_other_expectation, is_number, framing_of, framed_by, expects_continue, frames_body, is_head, closes};
ghost use Rattle.http_messages.specs.declared.limits.TheConstants.{BODY_LIMIT};

use crate::fields::{count_named, first_named, has_other_named, has_part_named, last_part_named};
use crate::parts::{same_bytes, same_in_any_case};
use http_messages::{BODY_LIMIT, Framing, HeadFault, MESSAGE_LIMIT, Message};

/// One byte more than the greatest body.
const OVER_BODY: u64 = BODY_LIMIT as u64 + 1;

// HTTP/1.1 without exactly one Host, or HTTP/1.0 with more than one.
fn breaks_host(head: &Message) -> bool
    ensures { result ≡ breaks_host head.now }
{
    let hosts = count_named(head.fields.as_slice(), b"host");
    (head.minor == 1 && hosts != 1) || (head.minor == 0 && 1 < hosts)
}

// Content-Length and Transfer-Encoding.
fn has_two_framings(head: &Message) -> bool
    ensures { result ≡ has_two_framings head.now }
{
    let fields = head.fields.as_slice();
    count_named(fields, b"content-length") != 0 && count_named(fields, b"transfer-encoding") != 0
}

// Transfer-Encoding in HTTP/1.0, or with a last coding other than chunked.
fn has_bad_coding(head: &Message) -> bool
    ensures { result ≡ has_bad_coding head.now }
{
    let fields = head.fields.as_slice();
    if count_named(fields, b"transfer-encoding") == 0 {
        return false;
    }
    let coding = last_part_named(fields, b"transfer-encoding");
    head.minor == 0 || !same_in_any_case(coding, b"chunked")
}

// Transfer-Encoding other than one field of the one coding chunked.
fn has_unknown_coding(head: &Message) -> bool
    ensures { result ≡ has_unknown_coding head.now }
{
    let fields = head.fields.as_slice();
    let codings = count_named(fields, b"transfer-encoding");
    if codings == 0 {
        return false;
    }
    let coding = first_named(fields, b"transfer-encoding");
    !(codings == 1 && same_in_any_case(coding, b"chunked"))
}

// Whether each byte is a digit.
fn is_digits(text: &[u8]) -> bool
    ensures { result ≡ list_all is_ascii_digit text.now }
{
    text.iter().all(|byte| 48 <= *byte && *byte <= 57)
}

// One or more digits.
fn is_number(text: &[u8]) -> bool
    ensures { result ≡ is_number text.now }
{
    !text.is_empty() && is_digits(text)
}

// More than one Content-Length, or one that is no number.
fn has_bad_length(head: &Message) -> bool
    ensures { result ≡ has_bad_length head.now }
{
    let fields = head.fields.as_slice();
    let lengths = count_named(fields, b"content-length");
    if lengths == 0 {
        return false;
    }
    !(lengths == 1 && is_number(first_named(fields, b"content-length")))
}

// The number that digits write, or one that is over the greatest body where it is greater.
fn size_of(digits: &[u8]) -> u64
    requires { IsTrue (list_all is_ascii_digit digits.now) }
    ensures { result ≡ min (digits_value 10 digits.now) (BODY_LIMIT + 1) }
{
    let mut size: u64 = 0;
    for digit in digits {
        size = (size * 10 + u64::from(*digit - b'0')).min(OVER_BODY);
    }
    size
}

// A Content-Length above the limit.
fn has_long_body(head: &Message) -> bool
    requires { has_bad_length head.now ≡ false }
    ensures { result ≡ has_long_body head.now }
{
    let fields = head.fields.as_slice();
    if count_named(fields, b"content-length") == 0 {
        return false;
    }
    (BODY_LIMIT as u64) < size_of(first_named(fields, b"content-length"))
}

// HTTP/1.1 with an Expect other than 100-continue.
fn has_other_expectation(head: &Message) -> bool
    ensures { result ≡ has_other_expectation head.now }
{
    head.minor == 1 && has_other_named(head.fields.as_slice(), b"expect", b"100-continue")
}

// The framing of a head that breaks no rule.
fn framed_by(head: &Message) -> Framing
    requires good { has_bad_length head.now ≡ false }
    requires short { has_long_body head.now ≡ false }
    ensures { result ≡ framed_by head.now }
{
    let fields = head.fields.as_slice();
    if count_named(fields, b"transfer-encoding") != 0 {
        return Framing::Chunked;
    }
    if count_named(fields, b"content-length") == 0 {
        return Framing::Empty;
    }
    Framing::Length(size_of(first_named(fields, b"content-length")))
}

/// How the body behind a head is framed, or the first rule that the head breaks (RFC 9112, section 6.3). A length
/// is at most 1,048,576. Takes no memory.
#[tactic(auto, unfolding(http_model::specs::Framings::framing_of))]
pub fn judge_head(head: &Message) -> Result<Framing, HeadFault>
    ensures { result ≡ framing_of head.now }
{
    if breaks_host(head) {
        Err(HeadFault::Host)
    } else if has_two_framings(head) {
        Err(HeadFault::TwoFramings)
    } else if has_bad_coding(head) {
        Err(HeadFault::BadCoding)
    } else if has_unknown_coding(head) {
        Err(HeadFault::UnknownCoding)
    } else if has_bad_length(head) {
        Err(HeadFault::BadLength)
    } else if has_long_body(head) {
        Err(HeadFault::LongBody)
    } else if has_other_expectation(head) {
        Err(HeadFault::Expectation)
    } else {
        Ok(framed_by(head))
    }
}

// Whether a body follows a head.
fn frames_body(framing: Result<Framing, HeadFault>) -> bool
    ensures { result ≡ frames_body framing }
{
    match framing {
        Ok(Framing::Empty) => false,
        Ok(Framing::Length(size)) => size != 0,
        Ok(Framing::Chunked) => true,
        Err(_) => false,
    }
}

/// Whether the sender of a head waits to be asked for the body (RFC 9110, section 10.1.1). Takes no memory.
#[tactic(auto, unfolding(http_model::specs::Framings::expects_continue))]
pub fn expects_continue(head: &Message) -> bool
    ensures { result ≡ expects_continue head.now }
{
    head.minor == 1
        && count_named(head.fields.as_slice(), b"expect") != 0
        && frames_body(judge_head(head))
}

/// Whether the reply to a message has no body: it is one to a HEAD request (RFC 9110, section 9.3.2).
#[tactic(auto, unfolding(http_model::specs::Framings::is_head))]
pub fn is_head(message: &Message) -> bool
    ensures { result ≡ is_head message.now }
{
    same_bytes(message.method.as_str().as_bytes(), b"HEAD")
}

/// Whether the reply to a message closes the connection: by its version, by its fields, or as the 1,000,000th
/// (RFC 9112, sections 9.3 and 9.6). Takes no memory.
#[tactic(auto, unfolding(http_model::specs::Framings::closes))]
pub fn closes(message: &Message, number: u64) -> bool
    ensures { result ≡ closes message.now number }
{
    message.minor == 0
        || has_part_named(message.fields.as_slice(), b"connection", b"close")
        || number == MESSAGE_LIMIT
}
