//! What no clause says: how many calls of the sink a text takes.
use http_messages::{
    Allow, Content, REPLY_ROOM, Reply, Stop, send_continue, send_reply, send_reply_by, send_stop,
    send_unavailable,
};
use ident_rules::{Bytes, NoMemory};
use outer_ends::{Failed, MemorySink};
use std::alloc::Global;
use std::test::Fail;

/// A sink whose call of that number fails.
fn sink(alloc: Global, failing: u64) -> Result<MemorySink, NoMemory> {
    let numbers = Vec::from_slice(alloc, &[failing])?;
    Ok(MemorySink::new(alloc, numbers))
}

/// A reply with a body of so many bytes. Its head has 91, and one for each digit of that.
fn reply(alloc: Global, length: usize) -> Result<Reply, NoMemory> {
    let mut body = Vec::new(alloc);
    body.resize(length, b'x')?;
    Ok(Reply {
        status: 200,
        content: Content::Plain,
        location: None,
        allow: Allow::Nothing,
        body: Bytes::from_vec(body),
    })
}

/// The calls that such a reply takes in a room of so many bytes, the bytes written, and whether all was sent.
fn calls_in(
    alloc: Global,
    room: usize,
    length: usize,
    failing: u64,
) -> Result<(u64, usize, bool), NoMemory> {
    let reply = reply(alloc, length)?;
    let mut sink = sink(alloc, failing)?;
    let mut room = vec![in alloc; 0u8; room]?;
    let sent = send_reply_by(room.as_mut_slice(), &reply, false, false, &mut sink);
    Ok((sink.calls(), sink.written().len(), sent.is_ok()))
}

// A row: the room, the body's length, the call that fails, and what calls_in tells.
#[test]
fn counts_calls(rt: HostRuntime) -> Result<(), Fail> {
    for (room, length, failing, told) in [
        (REPLY_ROOM, 16_288, 0, (1, REPLY_ROOM, true)),
        (REPLY_ROOM, 16_289, 0, (2, REPLY_ROOM + 1, true)),
        (REPLY_ROOM, 16_288, 1, (1, 0, false)),
        (REPLY_ROOM, 16_289, 1, (1, 0, false)),
        (REPLY_ROOM, 16_289, 2, (2, 96, false)),
        (96, 3, 0, (1, 95, true)),
        (95, 3, 0, (1, 95, true)),
        (94, 3, 0, (2, 95, true)),
    ] {
        assert_eq!(rt; calls_in(rt.alloc(), room, length, failing)?, told);
    }
    Ok(())
}

/// The calls that such a reply takes in no room but its own.
fn calls_alone(alloc: Global, length: usize) -> Result<u64, NoMemory> {
    let reply = reply(alloc, length)?;
    let mut sink = sink(alloc, 0)?;
    let sent = send_reply(&reply, false, false, &mut sink);
    Ok(if sent.is_ok() { sink.calls() } else { 0 })
}

#[test]
fn waits_in_its_own_room(rt: HostRuntime) -> Result<(), Fail> {
    for (length, calls) in [(930, 1), (931, 2)] {
        assert_eq!(rt; calls_alone(rt.alloc(), length)?, calls);
    }
    Ok(())
}

/// Writes one of the fixed texts.
fn send_fixed(number: u8, sink: &mut MemorySink) -> Result<(), Failed> {
    match number {
        0 => send_continue(sink),
        1 => send_unavailable(sink),
        2 => send_stop(Stop::Worn, sink),
        3 => send_stop(Stop::Store, sink),
        _ => send_stop(Stop::Feed, sink),
    }
}

/// Whether it leaves in one call.
fn leaves_at_once(alloc: Global, number: u8) -> Result<bool, NoMemory> {
    let mut sink = sink(alloc, 0)?;
    Ok(send_fixed(number, &mut sink).is_ok() && sink.calls() == 1)
}

#[test]
fn fixed_texts_leave_at_once(rt: HostRuntime) -> Result<(), Fail> {
    for number in 0..5 {
        assert!(rt; leaves_at_once(rt.alloc(), number)?);
    }
    Ok(())
}
