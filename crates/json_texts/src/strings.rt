ghost use Rattle.std.specs.Prelude.{◌≡◌, ◌<◌};
ghost use Rattle.std.specs.Char.{digit_char};
ghost use Rattle.json.specs.Print.{escape, escape_byte, escape_letter, quoted};
ghost use Rattle.json_texts.specs.Drafts.{Adds};

use crate::TextDraft;
use crate::plain::plain_end;

/// The letter of a byte's short escape, or 0.
fn letter(byte: u8) -> u8
    ensures { result ≡ escape_letter byte }
{
    match byte {
        b'"' | b'\\' => byte,
        8 => b'b',
        12 => b'f',
        b'\n' => b'n',
        b'\r' => b'r',
        b'\t' => b't',
        _ => 0,
    }
}

/// A hexadecimal digit.
fn hex(digit: u8) -> u8
    requires { digit < 16 }
    ensures { result ≡ digit_char digit }
{
    if digit < 10 {
        b'0' + digit
    } else {
        b'a' - 10 + digit
    }
}

/// Goes on with what stands for a byte in a string (RFC 8259, section 7).
#[tactic(auto, unfolding(json::specs::Print::escape_byte))]
fn add_byte(draft: &mut TextDraft, byte: u8)
    ensures { Adds draft.old draft.new (escape_byte byte) }
{
    let letter = letter(byte);
    if letter > 0 {
        draft.add(&[b'\\', letter]);
    } else if byte < 0x20 {
        draft.add(&[b'\\', b'u', b'0', b'0', hex(byte / 16), hex(byte % 16)]);
    } else {
        draft.add(&[byte]);
    }
}

/// Goes on with bytes as they stand in a string of JSON, without its quotes (RFC 8259, section 7): a quote, a backslash and
/// a control are escaped, runs of other bytes are added as they are.
pub fn add_escaped(draft: &mut TextDraft, text: &[u8])
    ensures { Adds draft.old draft.new (escape text.now) }
{
    let mut at = 0;
    loop {
        let stop = plain_end(text, at);
        draft.add(&text[at..stop]);
        if stop == text.len() {
            return;
        }
        add_byte(draft, text[stop]);
        at = stop + 1;
    }
}

/// Goes on with a text as a string of JSON (RFC 8259, section 7).
pub fn add_string(draft: &mut TextDraft, text: &str)
    ensures { Adds draft.old draft.new (quoted text.now) }
{
    draft.add(b"\"");
    add_escaped(draft, text.as_bytes());
    draft.add(b"\"");
}
