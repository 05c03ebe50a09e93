ghost use Rattle.std.specs.Fmt.{signed_decimal};
ghost use Rattle.json_texts.specs.Drafts.{Adds};

use crate::TextDraft;
use itoa::Buffer;

/// Goes on with an integer in decimal (RFC 8259, section 6).
pub fn add_int(draft: &mut TextDraft, number: i64)
    ensures { Adds draft.old draft.new (signed_decimal number) }
{
    let mut buffer = Buffer::new();
    draft.add(buffer.format(number).as_bytes());
}
