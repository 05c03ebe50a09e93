//! What no clause says: pieces of one byte, faults in mid-stream, and that ample memory suffices, also for bodies that are
//! longer than a buffer.
ghost use Rattle.std.specs.Prelude.{◌<◌};
ghost use Rattle.http_bodies.specs.Body.{FitsBodyLimit};

use http_bodies::{BodyEnd, take_body};
use http_framing::Buffer;
use http_messages::Framing;
use ident_rules::NoMemory;
use outer_ends::MemorySource;
use std::alloc::Global;
use std::test::Fail;

/// What a source of these bytes gives, in pieces of that size, where the read of that number fails; and how many bytes
/// stay in the buffer.
fn take(
    alloc: Global,
    bytes: &[u8],
    framing: Framing,
    piece: usize,
    fails: u64,
) -> Result<(BodyEnd, usize), NoMemory>
    requires piece { 0 < piece }
    requires framing { FitsBodyLimit framing }
{
    let failing = Vec::from_slice(alloc, &[fails])?;
    let mut source = MemorySource::new(Vec::from_slice(alloc, bytes)?, piece, failing);
    let mut buffer = Buffer::new(alloc)?;
    let end = take_body(alloc, &mut source, &mut buffer, framing);
    Ok((end, buffer.as_slice().len()))
}

/// A name for the end, and how many bytes stayed.
fn name_of(end: &Result<(BodyEnd, usize), NoMemory>, want: &[u8]) -> (&'static str, usize) {
    match end {
        Ok((BodyEnd::Body(body), kept)) if body.as_slice() == want => ("body", *kept),
        Ok((BodyEnd::Body(_), kept)) => ("another body", *kept),
        Ok((BodyEnd::CutShort, _)) => ("cut", 0),
        Ok((BodyEnd::BadChunk(place), _)) => ("bad", *place),
        Ok((BodyEnd::TooLarge, _)) => ("large", 0),
        Ok((BodyEnd::ReadFault, _)) => ("fault", 0),
        Ok((BodyEnd::NoMemory, _)) => ("memory", 0),
        Err(NoMemory) => ("none", 0),
    }
}

// A row: the bytes, their framing, the size of pieces, the read that fails; and what was found, with the bytes that stay or
// the place that is bad.
#[test]
fn takes_bodies(rt: HostRuntime) {
    let rows: [(&[u8], Framing, usize, u64, (&str, usize)); 9] = [
        (b"abcde", Framing::Length(3), 100, 0, ("body", 2)),
        (b"abcde", Framing::Empty, 1, 0, ("another body", 0)),
        (
            b"3\r\nabc\r\n0\r\n\r\nGET /",
            Framing::Chunked,
            100,
            0,
            ("body", 5),
        ),
        (
            b"1;x=y\r\na\r\n02 \r\nbc\r\n0\r\nX: y\r\n\r\n",
            Framing::Chunked,
            1,
            0,
            ("body", 0),
        ),
        (b"3\r\nabc\r\n0\r\n", Framing::Chunked, 1, 0, ("cut", 0)),
        (b"3\r\nabc\nX", Framing::Chunked, 1, 0, ("bad", 6)),
        (
            b"FFFFFFFFFFFFFFFF\r\nabc",
            Framing::Chunked,
            3,
            0,
            ("large", 0),
        ),
        (
            b"3\r\nabc\r\n0\r\n\r\n",
            Framing::Chunked,
            2,
            4,
            ("fault", 0),
        ),
        (b"abc", Framing::Length(3), 1, 3, ("fault", 0)),
    ];
    for (bytes, framing, piece, fails, want) in rows {
        assert_eq!(rt;
            name_of(&take(rt.alloc(), bytes, framing, piece, fails), b"abc"),
            want
        );
    }
}

/// So many bytes `a`.
fn letters(alloc: Global, count: usize) -> Result<Vec<u8>, NoMemory> {
    let mut bytes = Vec::new(alloc);
    bytes.resize(count, b'a')?;
    Ok(bytes)
}

/// 40,000 bytes `a` in chunks of 5,000, and then the last chunk.
fn long_chunks(alloc: Global) -> Result<Vec<u8>, NoMemory> {
    let piece = letters(alloc, 5_000)?;
    let mut bytes = Vec::new(alloc);
    for _ in 0..8 {
        bytes.extend_from_slice(b"1388\r\n")?;
        bytes.extend_from_slice(&piece)?;
        bytes.extend_from_slice(b"\r\n")?;
    }
    bytes.extend_from_slice(b"0\r\n\r\n")?;
    Ok(bytes)
}

#[test]
fn takes_a_long_body(rt: HostRuntime) -> Result<(), Fail> {
    let bytes = letters(rt.alloc(), 40_000)?;
    let end = take(rt.alloc(), &bytes, Framing::Length(40_000), 4_096, 0);
    assert_eq!(rt; name_of(&end, &bytes), ("body", 0));
    Ok(())
}

#[test]
fn takes_many_chunks(rt: HostRuntime) -> Result<(), Fail> {
    let bytes = letters(rt.alloc(), 40_000)?;
    let chunks = long_chunks(rt.alloc())?;
    let end = take(rt.alloc(), &chunks, Framing::Chunked, 4_096, 0);
    assert_eq!(rt; name_of(&end, &bytes), ("body", 0));
    Ok(())
}
