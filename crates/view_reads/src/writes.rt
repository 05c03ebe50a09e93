ghost use Rattle.std.specs.Prelude.{◌≡◌, ◌<◌, ◌≤◌, ◌+◌, ◌↔◌, IsTrue, vec_len, vec_capacity, length, get_or, true, false, [], IfOk, OnOk, OnErr, MatchResult, map, Some, None};
ghost use Rattle.std.specs.Option.{option_map};
ghost use Rattle.std.specs.FinMap.Entries.{find};
ghost use Rattle.world_cells.specs.CellOrder.{cell_key_cmp};
ghost use Rattle.world_cells.specs.Reads.{entries_of, overlay, AreRisingKeys};
ghost use Rattle.view_reads.specs.Merging.{nothing, put_of, IsOverlaid};
ghost use Rattle.view_reads.specs.Narrowing.{IsMet};
ghost use Rattle.view_reads.specs.Places.{AreSorted, Wrote, IsThere, IsBetween};
ghost use Rattle.view_reads.specs.Recording.{pair_now};
ghost use Rattle.view_reads.specs.Sides.{IsSplit};

use crate::spans::{in_span, is_passed};
use ident_rules::{List, NoMemory};
use std::alloc::Global;
use std::cmp::Ordering;
use std::marker::Model;
use world_cells::{Cell, CellKey, Span, Written};

/// A write behind a pointer of its own, so that others are moved past it cheaply. Contracts see the write.
#[derive(Drop)]
struct Kept {
    written: Box<Written>,
}

impl Model for Kept {
    ghost use Rattle.world_cells.specs.declared.sets.Written.{Written};

    ghost Value = { Written };

    ghost view = { λ k. k.written.value };
}

impl Kept {
    /// The write. Its one error is want of memory.
    fn new(alloc: Global, written: Written) -> Result<Kept, NoMemory>
        ensures { IfOk result (λ k. k ≡ written) }
    {
        Ok(Kept {
            written: Box::new(alloc, written)?,
        })
    }

    /// The write behind the pointer.
    fn written(&self) -> &Written
        ensures { result.now ≡ self.now }
    {
        &self.written
    }

    /// Another cell at the same key.
    fn set_cell(&mut self, cell: Option<Cell>)
        ensures { self.new ≡ record self.old { cell = cell } }
    {
        self.written.cell = cell;
    }

    /// The write itself. Takes no memory.
    fn into_written(self) -> Written
        ensures { result ≡ self }
    {
        let Kept { written } = self;
        Box::into_inner(written)
    }
}

/// Writes in strictly ascending order of their keys.
#[derive(Drop)]
pub(crate) struct Writes {
    alloc: Global,
    items: Vec<Kept>,
    /// Room for the list of them, so that it takes no memory.
    room: Vec<Written>,
}

impl Model for Writes {
    ghost use Rattle.std.specs.Prelude.{◌≡◌, ◌≤◌, [], List as Listed, vec_len, vec_capacity};
    ghost use Rattle.world_cells.specs.declared.sets.Written.{Written};
    ghost use Rattle.view_reads.specs.Places.{AreSorted};

    ghost Value = { Listed Written };

    ghost view = { λ w. w.items.items };

    ghost invariant = { λ w. AreSorted w.items.items × (w.room.items ≡ []) × (vec_len w.items ≤ vec_capacity w.room) };
}

impl Writes {
    /// None.
    pub(crate) fn new(alloc: Global) -> Writes
        ensures { result ≡ [] }
    {
        Writes {
            alloc,
            items: Vec::new(alloc),
            room: Vec::new(alloc),
        }
    }

    /// Whether there is none.
    pub(crate) fn is_empty(&self) -> bool
        ensures { IsTrue result ↔ (self.now ≡ []) }
    {
        self.items.is_empty()
    }

    /// What is written at a key, if anything.
    pub(crate) fn at(&self, key: &CellKey) -> Option<&Written>
        ensures { option_map (λ w. w.now.cell) result ≡ find cell_key_cmp key.now (entries_of self.now) }
    {
        match place_of(&self.items, key) {
            Ok(at) => Some(written_at(&self.items, at)),
            Err(_) => None,
        }
    }

    /// The cell that a search of a span meets first among those that are put.
    pub(crate) fn met_put(&self, from_top: bool, span: &Span) -> Option<(&CellKey, &Cell)>
        ensures { IsMet from_top (overlay nothing self.now) span.now (option_map pair_now result) }
    {
        if from_top {
            last_put(&self.items, span)
        } else {
            first_put(&self.items, span)
        }
    }

    /// Writes a cell, or with none removes what stands at the key.
    pub(crate) fn write(&mut self, key: CellKey, cell: Option<Cell>) -> Result<(), NoMemory>
        ensures ok { OnOk result (Wrote self.old key cell self.new) }
        ensures err { OnErr result (self.new ≡ self.old) }
    {
        let more = self.items.len().saturating_add(1);
        self.room.reserve(more)?;
        write_cell(self.alloc, &mut self.items, key, cell)
    }

    /// Writes cells over those that are there, all of them or none. Of two with one key the first counts.
    pub(crate) fn write_all(&mut self, writes: List<Written>) -> Result<(), NoMemory>
        ensures ok { OnOk result (IsOverlaid (overlay nothing self.old) writes (overlay nothing self.new)) }
        ensures err { OnErr result (self.new ≡ self.old) }
    {
        let more = writes.as_slice().len();
        self.room.reserve(self.items.len().saturating_add(more))?;
        write_all(self.alloc, &mut self.items, writes)
    }

    /// Leaves no write.
    pub(crate) fn clear(&mut self)
        ensures { self.new ≡ [] }
    {
        self.items.clear();
    }

    /// The writes in order. Takes no memory.
    pub(crate) fn into_list(self) -> List<Written>
        ensures same { result ≡ self }
        ensures rising { AreRisingKeys (map (λ w. w.key) result) }
    {
        let Writes {
            alloc: _,
            items,
            room,
        } = self;
        List::from_vec(unboxed(items, room))
    }
}

/// The writes, in room that is there for them.
fn unboxed(items: Vec<Kept>, room: Vec<Written>) -> Vec<Written>
    requires empty { room.items ≡ [] }
    requires room { vec_len items ≤ vec_capacity room }
    ensures { result.items ≡ items.items }
{
    let mut all = room;
    for item in items {
        all.push_reserved(item.into_written());
    }
    all
}

/// The writes, each behind a pointer of its own. Its one error is want of memory.
fn boxed(alloc: Global, writes: List<Written>) -> Result<Vec<Kept>, NoMemory>
    ensures { IfOk result (λ kept. kept.items ≡ writes) }
{
    let mut kept = Vec::with_capacity(alloc, writes.as_slice().len())?;
    for written in writes.into_vec() {
        kept.push(Kept::new(alloc, written)?)?;
    }
    Ok(kept)
}

/// The write at a place.
fn written_at(writes: &[Kept], at: usize) -> &Written
    requires { at < length writes.now }
    ensures { result.now ≡ get_or writes.now at result.now }
{
    writes[at].written()
}

/// What a write puts, if anything.
fn put_of(written: &Written) -> Option<(&CellKey, &Cell)>
    ensures { option_map pair_now result ≡ put_of written.now }
{
    match &written.cell {
        Some(cell) => Some((&written.key, cell)),
        None => None,
    }
}

/// How many of the writes stand before a span, or, where the span is to be passed too, not behind it, by halves.
fn passed(writes: &[Kept], whole: bool, span: &Span) -> usize
    requires { AreSorted writes.now }
    ensures { IsSplit whole span.now writes.now result }
{
    let mut low = 0;
    let mut high = writes.len();
    while low < high {
        let middle = low + (high - low) / 2;
        if is_passed(whole, span, &written_at(writes, middle).key) {
            low = middle + 1;
        } else {
            high = middle;
        }
    }
    low
}

/// The first cell that is put into a span.
fn first_put<'a>(writes: &'a [Kept], span: &Span) -> Option<(&'a CellKey, &'a Cell)>
    requires { AreSorted writes.now }
    ensures { IsMet false (overlay nothing writes.now) span.now (option_map pair_now result) }
{
    let mut at = passed(writes, false, span);
    while at < writes.len() {
        let written = written_at(writes, at);
        if !in_span(span, &written.key) {
            return None;
        }
        if let Some(put) = put_of(written) {
            return Some(put);
        }
        at += 1;
    }
    None
}

/// The last cell that is put into a span.
fn last_put<'a>(writes: &'a [Kept], span: &Span) -> Option<(&'a CellKey, &'a Cell)>
    requires { AreSorted writes.now }
    ensures { IsMet true (overlay nothing writes.now) span.now (option_map pair_now result) }
{
    let mut at = passed(writes, true, span);
    while at > 0 {
        at -= 1;
        let written = written_at(writes, at);
        if !in_span(span, &written.key) {
            return None;
        }
        if let Some(put) = put_of(written) {
            return Some(put);
        }
    }
    None
}

/// The place of a key, or else the place where it would stand, by halves.
fn place_of(writes: &[Kept], key: &CellKey) -> Result<usize, usize>
    requires { AreSorted writes.now }
    ensures { MatchResult result (IsThere writes.now key.now) (IsBetween writes.now key.now) }
{
    let mut low = 0;
    let mut high = writes.len();
    while low < high {
        let middle = low + (high - low) / 2;
        match key.cmp(&written_at(writes, middle).key) {
            Ordering::Less => high = middle,
            Ordering::Equal => return Ok(middle),
            Ordering::Greater => low = middle + 1,
        }
    }
    Err(low)
}

/// Writes a cell, or with none removes what stands at the key. Its one error is want of memory, after which nothing has changed.
fn write_cell(
    alloc: Global,
    writes: &mut Vec<Kept>,
    key: CellKey,
    cell: Option<Cell>,
) -> Result<(), NoMemory>
    requires { AreSorted writes.old.items }
    ensures ok { OnOk result (Wrote writes.old.items key cell writes.new.items) }
    ensures err { OnErr result (writes.new.items ≡ writes.old.items) }
    ensures len { vec_len writes.new ≤ vec_len writes.old + 1 }
{
    match place_of(writes, &key) {
        Ok(at) => {
            writes[at].set_cell(cell);
            Ok(())
        }
        Err(at) => {
            let kept = Kept::new(alloc, Written { key, cell })?;
            writes.insert(at, kept)?;
            Ok(())
        }
    }
}

/// Writes a cell where there is room for one more.
fn write_in_room(writes: &mut Vec<Kept>, kept: Kept)
    requires sorted { AreSorted writes.old.items }
    requires room { vec_len writes.old < vec_capacity writes.old }
    ensures wrote { Wrote writes.old.items kept.key kept.cell writes.new.items }
    ensures len { vec_len writes.new ≤ vec_len writes.old + 1 }
    ensures capacity { vec_capacity writes.old ≤ vec_capacity writes.new }
{
    match place_of(writes, &kept.written().key) {
        Ok(at) => {
            let Written { key: _, cell } = kept.into_written();
            writes[at].set_cell(cell);
        }
        Err(at) => {
            let Ok(()) = writes.insert(at, kept) else {
                unreachable!()
            };
        }
    }
}

/// Writes cells from the last to the first, all of them or none.
fn write_all(alloc: Global, writes: &mut Vec<Kept>, new: List<Written>) -> Result<(), NoMemory>
    requires { AreSorted writes.old.items }
    ensures sorted { AreSorted writes.new.items }
    ensures ok { OnOk result (IsOverlaid (overlay nothing writes.old.items) new (overlay nothing writes.new.items)) }
    ensures err { OnErr result (writes.new.items ≡ writes.old.items) }
    ensures len { vec_len writes.new ≤ vec_len writes.old + length new }
{
    writes.reserve(new.as_slice().len())?;
    let mut left = boxed(alloc, new)?;
    while let Some(kept) = left.pop() {
        write_in_room(writes, kept);
    }
    Ok(())
}
