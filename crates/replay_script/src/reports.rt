//! The text of a report.
ghost use Rattle.std.specs.Prelude.{◌≡◌, ◌++◌, ◌∷◌, IfOk, codes, false, map};
ghost use Rattle.json.specs.Print.{quoted};
ghost use Rattle.json_texts.specs.Drafts.{Adds};
ghost use Rattle.serde_json.specs.Written.{comma_if, compact_text};
ghost use Rattle.replay_script.specs.Reports.{end_word, end_data, number_data, bytes_data, array_data, report_data, report_text};

use base64::engine::general_purpose::STANDARD;
use http_messages::SessionEnd;
use ident_rules::{Bytes, NoMemory};
use json_texts::{TextDraft, add_string};
use replay_runs::Report;
use std::alloc::Global;

/// The word of an end.
fn end_word(end: SessionEnd) -> &'static str
    ensures { result.now ≡ end_word end }
{
    match end {
        SessionEnd::Closed => "closed",
        SessionEnd::Refused(_) => "refused",
        SessionEnd::CutShort => "cut-short",
        SessionEnd::ReadFault => "read-fault",
        SessionEnd::WriteFault => "write-fault",
        SessionEnd::NoMemory => "no-memory",
        SessionEnd::Worn => "worn",
    }
}

/// Goes on with a comma, where something stands before.
fn add_comma(draft: &mut TextDraft, later: bool)
    ensures { Adds draft.old draft.new (comma_if later) }
{
    if later {
        draft.add(b",");
    }
}

/// Goes on with an end as an item of an array.
fn add_end(draft: &mut TextDraft, later: bool, end: &SessionEnd)
    ensures { Adds draft.old draft.new (comma_if later ++ compact_text (end_data end.now)) }
{
    add_comma(draft, later);
    add_string(draft, end_word(*end));
}

/// Goes on with the ends as an array.
fn add_ends(draft: &mut TextDraft, ends: &[SessionEnd])
    ensures { Adds draft.old draft.new (compact_text (array_data end_data ends.now)) }
{
    draft.add(b"[");
    let mut later = false;
    for end in ends {
        add_end(draft, later, end);
        later = true;
    }
    draft.add(b"]");
}

/// Goes on with a number as an item of an array.
fn add_number(draft: &mut TextDraft, later: bool, number: u64)
    ensures { Adds draft.old draft.new (comma_if later ++ compact_text (number_data number)) }
{
    let mut buffer = itoa::Buffer::new();
    add_comma(draft, later);
    draft.add(buffer.format(number).as_bytes());
}

/// Goes on with the number of a stream as an item of an array.
fn add_stream(draft: &mut TextDraft, later: bool, number: &u32)
    ensures { Adds draft.old draft.new (comma_if later ++ compact_text (number_data number.now)) }
{
    add_number(draft, later, *number as u64);
}

/// Goes on with a count as an item of an array.
fn add_count(draft: &mut TextDraft, later: bool, count: &u64)
    ensures { Adds draft.old draft.new (comma_if later ++ compact_text (number_data count.now)) }
{
    add_number(draft, later, *count);
}

/// Goes on with the numbers of streams as an array.
fn add_history(draft: &mut TextDraft, numbers: &[u32])
    ensures { Adds draft.old draft.new (compact_text (array_data number_data numbers.now)) }
{
    draft.add(b"[");
    let mut later = false;
    for number in numbers {
        add_stream(draft, later, number);
        later = true;
    }
    draft.add(b"]");
}

/// Goes on with counts as an array.
fn add_counts(draft: &mut TextDraft, counts: &[u64])
    ensures { Adds draft.old draft.new (compact_text (array_data number_data counts.now)) }
{
    draft.add(b"[");
    let mut later = false;
    for count in counts {
        add_count(draft, later, count);
        later = true;
    }
    draft.add(b"]");
}

/// Goes on with bytes in padded base64 as an item of an array (RFC 4648, section 4).
fn add_reply(
    alloc: Global,
    draft: &mut TextDraft,
    later: bool,
    bytes: &[u8],
) -> Result<(), NoMemory>
    ensures { IfOk result (λ _. Adds draft.old draft.new (comma_if later ++ compact_text (bytes_data bytes.now))) }
{
    let Ok(text) = STANDARD.encode(alloc, bytes) else {
        return Err(NoMemory);
    };
    add_comma(draft, later);
    add_string(draft, text.as_str());
    Ok(())
}

/// Goes on with replies as an array.
fn add_replies(alloc: Global, draft: &mut TextDraft, replies: &[Bytes]) -> Result<(), NoMemory>
    ensures { IfOk result (λ _. Adds draft.old draft.new (compact_text (array_data bytes_data replies.now))) }
{
    draft.add(b"[");
    let mut later = false;
    for reply in replies {
        add_reply(alloc, draft, later, reply.as_slice())?;
        later = true;
    }
    draft.add(b"]");
    Ok(())
}

/// Goes on with a report: an object with the words of the ends, the stream of each entry, the refused commits of each stream, and what
/// each was sent, and a line feed.
fn add_report(alloc: Global, draft: &mut TextDraft, report: &Report) -> Result<(), NoMemory>
    ensures { IfOk result (λ _. Adds draft.old draft.new (report_text report.now)) }
{
    draft.add(b"{\"ends\":");
    add_ends(draft, &report.ends);
    draft.add(b",\"history\":");
    add_history(draft, &report.history);
    draft.add(b",\"refused\":");
    add_counts(draft, &report.refused);
    draft.add(b",\"replies\":");
    add_replies(alloc, draft, &report.replies)?;
    draft.add(b"}\n");
    Ok(())
}

/// The text of a report and a line feed: an object with the words of the ends, the stream of each entry, the refused commits of each
/// stream, and what each was sent in padded base64. Its one error is want of memory.
pub fn report_text(alloc: Global, report: &Report) -> Result<Bytes, NoMemory>
    ensures { IfOk result (λ text. text ≡ report_text report.now) }
{
    let mut draft = TextDraft::new(alloc);
    add_report(alloc, &mut draft, report)?;
    draft.finish()
}
