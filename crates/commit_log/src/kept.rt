//! The last entries that changed a cell, in a ring.
ghost use Rattle.std.specs.Prelude.{◌≡◌, ◌<◌, ◌≤◌, ◌++◌, ◌∷◌, [], length, map, get_or, IfOk};
ghost use Rattle.circular_buffer.specs.Buffer.{buffer};
ghost use Rattle.view_reads.specs.Counts.{counted};
ghost use Rattle.commit_log.specs.Keeping.{IsPushed};

use circular_buffer::HeapCircularBuffer;
use ident_rules::NoMemory;
use outer_ends::Work;
use std::alloc::Global;
use std::marker::Model;
use world_cells::KeySet;

/// What is kept of an entry.
#[derive(Drop)]
pub struct KeptEntry {
    /// Its number.
    pub number: u64,
    /// The keys of the cells that it changed.
    pub keys: KeySet,
}

/// The last entries, from the oldest on. They are reached by `entry` alone.
#[derive(Drop)]
pub struct Kept {
    ring: HeapCircularBuffer<KeptEntry>,
}

impl Model for Kept {
    ghost use Rattle.circular_buffer.specs.Buffer.{Buffer};
    ghost use Rattle.commit_log.specs.declared.kept.KeptEntry.{KeptEntry};

    ghost Value = { Buffer KeptEntry };

    ghost view = { λ k. k.ring };
}

impl Kept {
    /// None, with room for `window`. Its one error is want of memory.
    pub(crate) fn new(alloc: Global, window: usize) -> Result<Kept, NoMemory>
        ensures { IfOk result (λ k. k ≡ buffer [] window) }
    {
        Ok(Kept {
            ring: HeapCircularBuffer::with_capacity(alloc, window)?,
        })
    }

    /// How many entries are kept.
    pub fn len(&self) -> usize
        ensures { result ≡ length self.now.items }
    {
        self.ring.len()
    }

    /// The entry at a place, from the oldest on. Adds one to `work`.
    pub fn entry(&self, place: usize, work: &mut Work) -> &KeptEntry
        requires { place < length self.now.items }
        ensures entry { result.now ≡ get_or self.now.items place result.now }
        ensures work { work.new.done ≡ counted work.old.done }
    {
        work.add();
        match self.ring.get(place) {
            Some(entry) => entry,
            None => unreachable!(),
        }
    }

    /// Keeps one more entry. Where there is no room, the oldest is dropped, whose number is the answer. Takes no memory.
    pub(crate) fn push(&mut self, entry: KeptEntry) -> Option<u64>
        requires some { 0 < self.old.capacity }
        requires fits { length self.old.items ≤ self.old.capacity }
        ensures { IsPushed self.old entry self.new result }
    {
        match self.ring.push_back(entry) {
            Some(dropped) => Some(dropped.number),
            None => None,
        }
    }
}
