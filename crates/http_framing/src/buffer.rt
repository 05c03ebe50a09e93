ghost use Rattle.std.specs.Prelude.{◌≡◌, ◌<◌, ◌≤◌, ◌+◌, [], length, take, drop, IfOk};
ghost use Rattle.std.specs.List.{slice_range};
ghost use Rattle.outer_ends.specs.Causes.{HasCause};
ghost use Rattle.outer_ends.specs.Streams.{ReadTakes, ReadLeaves};
ghost use Rattle.http_framing.specs.declared.buffer.TheConstants.{ROOM};
ghost use Rattle.http_framing.specs.Fills.{Adds, FillIs};
ghost use Rattle.http_framing.specs.Fronts.{HeadSoFarIs};
ghost use Rattle.http_framing.specs.Sections.{SectionIs};

use crate::fronts::{HeadSoFar, judge};
use crate::sections::{Section, judge_section};
use http_messages::{HEAD_LIMIT, TRAILER_LIMIT};
use httparse::spans::{EMPTY_HEADER_SPAN, HeaderSpan};
use ident_rules::NoMemory;
use outer_ends::{Failed, Source};
use std::alloc::Global;
use std::marker::Model;

/// The bytes of the room of a buffer: those of two heads.
pub const ROOM: usize = 32_768;

/// The fields that a head's bytes have room for, each of three bytes at least.
pub const SPANS: usize = 5_462;

/// What a read into the buffer found.
#[derive(Clone, Copy, Debug, PartialEq, Eq)]
pub enum Fill {
    /// Some bytes, which the buffer now holds.
    More,
    /// The end of the input.
    End,
    /// The source failed, and its count says so.
    Failed,
}

/// The bytes that were read and not used, in a room of 32,768 bytes, and room for the spans of the fields
/// that a head can hold. Both are made once. Contracts see the buffer as the list of its bytes.
#[derive(Drop)]
pub struct Buffer {
    room: Vec<u8>,
    start: usize,
    end: usize,
    spans: Vec<HeaderSpan>,
}

impl Model for Buffer {
    ghost use Rattle.std.specs.Prelude.{List, ℕ};
    ghost use Rattle.std.specs.List.{slice_range};
    ghost use Rattle.http_framing.specs.Rooms.{IsRoom};

    ghost Value = { List ℕ };

    ghost view = { λ b. slice_range b.room.items b.start b.end };

    ghost invariant = { λ b. IsRoom b.start b.end b.room.items b.spans.items };
}

// Moves the bytes in use to the front of the room, where less than half of it is behind them.
fn make_room(room: &mut Vec<u8>, start: usize, end: usize) -> (usize, usize)
    requires ordered { start ≤ end }
    requires within { end ≤ length room.old.items }
    requires size { length room.old.items ≡ ROOM }
    requires free { end < start + ROOM }
    ensures ordered { result.0 ≤ result.1 }
    ensures free { result.1 < length room.new.items }
    ensures len { length room.new.items ≡ length room.old.items }
    ensures kept { slice_range room.new.items result.0 result.1 ≡ slice_range room.old.items start end }
{
    if room.len() - end < HEAD_LIMIT {
        room.copy_within(start..end, 0);
        (0, end - start)
    } else {
        (start, end)
    }
}

// Reads once into the room, behind its first bytes.
fn read_behind<S: Source>(source: &mut S, room: &mut Vec<u8>, end: usize) -> Result<usize, Failed>
    requires { end < length room.old.items }
    ensures kept { take end room.new.items ≡ take end room.old.items }
    ensures len { length room.new.items ≡ length room.old.items }
    ensures bound { IfOk result (λ n. end + n ≤ length room.new.items) }
    ensures left { ReadLeaves (S.told source.old) (S.told source.new) result (drop end room.new.items) }
    ensures taken { ReadTakes (S.told source.old) (S.told source.new) result (drop end room.new.items) }
    ensures cause { HasCause (S.told source.old).faults (S.told source.new).faults result }
{
    source.read(&mut room[end..])
}

impl Buffer {
    /// An empty buffer. Its one error is want of memory.
    pub fn new(alloc: Global) -> Result<Buffer, NoMemory>
        ensures { IfOk result (λ b. b ≡ []) }
    {
        let Ok(room) = vec![in alloc; 0u8; ROOM] else {
            return Err(NoMemory);
        };
        let Ok(spans) = vec![in alloc; EMPTY_HEADER_SPAN; SPANS] else {
            return Err(NoMemory);
        };
        Ok(Buffer {
            room,
            start: 0,
            end: 0,
            spans,
        })
    }

    /// The bytes.
    pub fn as_slice(&self) -> &[u8]
        ensures { result.now ≡ self.now }
    {
        &self.room[self.start..self.end]
    }

    /// What stands at the front of the bytes, judged by the first 16,384 of them.
    pub(crate) fn judge(&mut self, alloc: Global) -> HeadSoFar
        ensures kept { self.new ≡ self.old }
        ensures judged { HeadSoFarIs self.old result }
    {
        let end = self.end.min(self.start + HEAD_LIMIT);
        judge(alloc, &self.room[self.start..end], &mut self.spans)
    }

    /// What stands at the front of the bytes where a section of fields should stand, as trailers are, judged by the
    /// first 16,384 of them. Takes no memory.
    pub fn judge_section(&mut self) -> Section
        ensures kept { self.new ≡ self.old }
        ensures judged { SectionIs self.old result }
    {
        let end = self.end.min(self.start + TRAILER_LIMIT);
        judge_section(&self.room[self.start..end], &mut self.spans)
    }

    /// Drops the first bytes. Takes no time that grows with the others.
    pub fn advance(&mut self, count: usize)
        requires { count ≤ length self.old }
        ensures { self.new ≡ drop count self.old }
    {
        self.start += count;
    }

    /// Reads once, as much as there is room for, and adds what came.
    pub fn fill<S: Source>(&mut self, source: &mut S) -> Fill
        requires { length self.old < ROOM }
        ensures adds { Adds self.old self.new (S.told source.old) (S.told source.new) }
        ensures end { FillIs self.old self.new (S.told source.old) (S.told source.new) result }
    {
        let (start, end) = make_room(&mut self.room, self.start, self.end);
        self.start = start;
        self.end = end;
        match read_behind(source, &mut self.room, self.end) {
            Err(Failed) => Fill::Failed,
            Ok(0) => Fill::End,
            Ok(count) => {
                self.end += count;
                Fill::More
            }
        }
    }
}
