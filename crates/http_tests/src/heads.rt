//! What no clause says: pieces of one byte, faults in mid-stream, and that ample memory suffices.
ghost use Rattle.std.specs.Prelude.{◌<◌};

use http_framing::{
    Buffer, Framing, HeadEnd, HeadFault, closes, expects_continue, is_head, judge_head, take_head,
};
use http_messages::Message;
use ident_rules::NoMemory;
use outer_ends::MemorySource;
use std::alloc::Global;

/// What a source of these bytes gives, in pieces of that size, where the read of that number fails.
fn take(alloc: Global, bytes: &[u8], piece: usize, fails: u64) -> Result<HeadEnd, NoMemory>
    requires { 0 < piece }
{
    let failing = Vec::from_slice(alloc, &[fails])?;
    let mut source = MemorySource::new(Vec::from_slice(alloc, bytes)?, piece, failing);
    let mut buffer = Buffer::new(alloc)?;
    Ok(take_head(alloc, &mut source, &mut buffer))
}

fn name_of(end: &Result<HeadEnd, NoMemory>) -> &'static str {
    match end {
        Ok(HeadEnd::Head(_)) => "head",
        Ok(HeadEnd::End) => "end",
        Ok(HeadEnd::CutShort) => "cut",
        Ok(HeadEnd::Bad) => "bad",
        Ok(HeadEnd::TooLarge) => "large",
        Ok(HeadEnd::TooMany) => "many",
        Ok(HeadEnd::ReadFault) => "fault",
        Ok(HeadEnd::NoMemory) => "memory",
        Err(NoMemory) => "none",
    }
}

// A row: the bytes, the size of pieces, the read that fails, and what was found.
#[test]
fn tells_heads(rt: HostRuntime) {
    let rows: [(&[u8], usize, u64, &str); 10] = [
        (b"GET /x HTTP/1.1\r\nHost: h\r\n\r\nrest", 1, 0, "head"),
        (b"\r\n\nGET /x HTTP/1.0\n\n", 2, 0, "head"),
        (b"\r\n", 1, 0, "end"),
        (b"GET /art", 3, 0, "cut"),
        (b"GET /\x80", 1, 0, "bad"),
        (b"G(T", 3, 0, "bad"),
        (b"GET /art", 3, 2, "fault"),
        // what one read brings is enough, though the second would fail
        (b"GET / HTTP/1.0\n\n", 40, 2, "head"),
        (b"", 40, 2, "end"),
        (b"GET / HTTP/1.0\nA: b\nC:\n\n", 40, 0, "head"),
    ];
    for (bytes, piece, fails, want) in rows {
        assert_eq!(rt; name_of(&take(rt.alloc(), bytes, piece, fails)), want);
    }
}

/// What is told of a head: its framing or fault, and what follows from its fields.
fn told_of(message: &Message) -> (Result<Framing, HeadFault>, bool, bool, bool) {
    (
        judge_head(message),
        expects_continue(message),
        is_head(message),
        closes(message, 7),
    )
}

#[test]
fn judges_a_head(rt: HostRuntime) {
    let bytes =
        b"HEAD / HTTP/1.1\nhOST: h\nExpect: 100-Continue\nConnection: te, CLOSE\nContent-Length: 005 \n\n";
    let told = match take(rt.alloc(), bytes, 9, 0) {
        Ok(HeadEnd::Head(message)) => Some(told_of(&message)),
        _ => None,
    };
    assert_eq!(rt; told, Some((Ok(Framing::Length(5)), true, true, true)));
}
