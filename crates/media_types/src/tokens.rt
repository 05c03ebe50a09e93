ghost use Rattle.std.specs.Prelude.{◌≡◌, ◌==◌, IfOk, IsTrue, codes, reverse};
ghost use Rattle.std.specs.List.{before_first, after_first, list_all, list_any};
ghost use Rattle.request_model.specs.Words.{is_any};
ghost use Rattle.request_model.specs.MediaTypes.{is_token_byte, is_token, is_blank, skip_blanks, trim_blanks};

use ident_rules::{NoMemory, Text};
use std::alloc::Global;

// Whether a byte is one of these.
fn is_among(bytes: &[u8], byte: u8) -> bool
    ensures { result ≡ list_any (λ c. byte == c) bytes.now }
{
    bytes.iter().any(|other| byte == *other)
}

fn is_token_byte(byte: u8) -> bool
    ensures { result ≡ is_token_byte byte }
{
    byte.is_ascii_alphanumeric() || is_among(b"!#$%&'*+-.^_`|~", byte)
}

fn has_token_bytes(text: &[u8]) -> bool
    ensures { result ≡ list_all is_token_byte text.now }
{
    text.iter().all(|byte| is_token_byte(*byte))
}

/// Whether there is something in a text.
pub fn is_any(text: &[u8]) -> bool
    ensures { result ≡ is_any text.now }
{
    0 < text.len()
}

/// Whether a text is a token (RFC 9110, section 5.6.2).
pub fn is_token(text: &[u8]) -> bool
    ensures { result ≡ is_token text.now }
{
    is_any(text) && has_token_bytes(text)
}

/// The text of a token. Its one error is want of memory.
pub fn token_text(alloc: Global, token: &[u8]) -> Result<Text, NoMemory>
    requires { IsTrue (is_token token.now) }
    ensures { IfOk result (λ t. t ≡ token.now) }
{
    match str::from_utf8(token) {
        Ok(text) => Text::from_str(alloc, text),
        Err(_) => unreachable!(),
    }
}

fn is_blank(byte: u8) -> bool
    ensures { result ≡ is_blank byte }
{
    byte == b' ' || byte == b'\t'
}

// The bytes without the spaces and tabs in front.
fn skip_blanks(bytes: &[u8]) -> &[u8]
    ensures { result.now ≡ skip_blanks bytes.now }
{
    let mut rest = bytes;
    while let [byte, tail @ ..] = rest {
        if !is_blank(*byte) {
            return rest;
        }
        rest = tail;
    }
    rest
}

// The bytes without the spaces and tabs behind.
fn cut_blanks(bytes: &[u8]) -> &[u8]
    ensures { result.now ≡ reverse (skip_blanks (reverse bytes.now)) }
{
    let mut rest = bytes;
    while let [head @ .., byte] = rest {
        if !is_blank(*byte) {
            return rest;
        }
        rest = head;
    }
    rest
}

/// The bytes without outer spaces and tabs (RFC 9110, section 5.6.3).
pub fn trim_blanks(bytes: &[u8]) -> &[u8]
    ensures { result.now ≡ trim_blanks bytes.now }
{
    cut_blanks(skip_blanks(bytes))
}

/// What stands before the first such byte, or all, and what stands behind it, or nothing.
pub fn halves_at(separator: u8, text: &[u8]) -> (&[u8], &[u8])
    ensures before { result.0.now ≡ before_first (λ b. b == separator) text.now }
    ensures after { result.1.now ≡ after_first (λ b. b == separator) text.now }
{
    match text.iter().position(|byte| *byte == separator) {
        Some(place) => (&text[..place], &text[place + 1..]),
        None => (text, b""),
    }
}
