//! The log of the last entries that changed a cell.
ghost use Rattle.std.specs.Prelude.{◌≡◌, ◌<◌, ◌≤◌, ◌+◌, ◌++◌, ◌∷◌, [], ◌⊎◌, ◌↔◌, IsTrue, List, length, map, IfOk, Some, None};
ghost use Rattle.history_model.specs.Histories.{Noted, IsAbove};
ghost use Rattle.history_model.specs.Standing.{LogSays, Pushes, Keeps};
ghost use Rattle.commit_log.specs.Keeping.{noted, AreBelow, AreRising, IsScanned, count_after};
ghost use Rattle.commit_log.specs.Writers.{Note, StandsFor, with_notes, with_all, KeysAreOld, PartsAreOld, AreOld};
ghost use Rattle.commit_log.specs.Logs.{no_entries};

use crate::kept::{Kept, KeptEntry};
use crate::last_writers::LastWriters;
use crate::reads::meets;
use history_model::Check;
use ident_rules::NoMemory;
use outer_ends::Work;
use std::alloc::Global;
use std::marker::Model;
use world_cells::{CellKey, KeySet, Part, ReadSet};

/// The last entries that changed a cell, at most `window`, with the number of the one that was dropped last, and the last
/// writers of all entries so far. Contracts see the log of the history, and the table of last writers.
#[derive(Drop)]
pub struct CommitLog {
    kept: Kept,
    dropped: Option<u64>,
    last: LastWriters,
}

impl Model for CommitLog {
    ghost use Rattle.std.specs.Prelude.{map};
    ghost use Rattle.commit_log.specs.Keeping.{noted};
    ghost use Rattle.commit_log.specs.Logs.{Logged, IsLogged};

    ghost Value = { Logged };

    ghost view = { λ c. record { log = record { window = c.kept.capacity; kept = map noted c.kept.items; dropped = c.dropped }; writers = c.last } };

    ghost invariant = { λ c. IsLogged c.kept c.last };
}

/// Notes that the entry of a number changed the cells of some keys.
fn note_all(last: &mut LastWriters, keys: &[CellKey], number: u64)
    ensures { last.new ≡ with_notes last.old keys.now number }
{
    for key in keys {
        last.note(key, number);
    }
}

/// Whether each key's last writer has at most this number.
fn keys_are_old(last: &LastWriters, keys: &[CellKey], since: u64) -> bool
    ensures { IsTrue result ↔ KeysAreOld last.now keys.now since }
{
    for key in keys {
        if last.last(key) > since {
            return false;
        }
    }
    true
}

/// Whether the last writer of each part's group has at most this number.
fn parts_are_old(last: &LastWriters, parts: &[Part], since: u64) -> bool
    ensures { IsTrue result ↔ PartsAreOld last.now parts.now since }
{
    for part in parts {
        if last.last_in(&part.span) > since {
            return false;
        }
    }
    true
}

/// Whether each last writer of the reads has at most this number.
fn are_old(last: &LastWriters, reads: &ReadSet, since: u64) -> bool
    ensures { IsTrue result ↔ AreOld last.now reads.now since }
{
    keys_are_old(last, reads.keys.as_slice(), since)
        && parts_are_old(last, reads.parts.as_slice(), since)
}

/// The first kept entry after a number that wrote what was read. It looks from the newest one back, at entries after that
/// number and at one more.
fn scan(kept: &Kept, reads: &ReadSet, since: u64, work: &mut Work) -> Check
    requires rising { AreRising (map noted kept.now.items) }
    ensures scanned { IsScanned reads.now since (map noted kept.now.items) result }
    ensures work { work.new.done ≤ work.old.done + count_after since (map noted kept.now.items) + 1 }
{
    let mut found = Check::Clear;
    let mut place = kept.len();
    while place > 0 {
        place -= 1;
        let entry = kept.entry(place, work);
        if entry.number <= since {
            return found;
        }
        if meets(reads, &entry.keys) {
            found = Check::Conflict(entry.number);
        }
    }
    found
}

impl CommitLog {
    /// A log of no entry. Its one error is want of memory.
    pub fn new(alloc: Global, window: usize) -> Result<CommitLog, NoMemory>
        requires { 0 < window }
        ensures log { IfOk result (λ c. c.log ≡ no_entries window) }
        ensures writers { IfOk result (λ c. StandsFor c.writers []) }
        ensures keeps { IfOk result (λ c. Keeps c.log []) }
    {
        Ok(CommitLog {
            kept: Kept::new(alloc, window)?,
            dropped: None,
            last: LastWriters::new(alloc)?,
        })
    }

    /// What the log says of the reads of a trial on a snapshot of that number: the number of the entry that was dropped
    /// last, where it came after the snapshot; otherwise the number of the first entry after it that wrote what was read.
    ///
    /// `work` counts the kept entries that are looked at: none where the last writers or the dropped entry tell, otherwise
    /// those after the snapshot and one more. Takes no memory.
    pub fn first_conflict(&self, reads: &ReadSet, since: u64, work: &mut Work) -> Check
        ensures says { LogSays self.now.log reads.now since result }
        ensures quiet { IsAbove since self.now.log.dropped ⊎ AreOld self.now.writers reads.now since → work.new.done ≡ work.old.done }
        ensures work { work.new.done ≤ work.old.done + count_after since self.now.log.kept + 1 }
    {
        if let Some(dropped) = self.dropped {
            if dropped > since {
                return Check::Aged(dropped);
            }
        }
        if are_old(&self.last, reads, since) {
            return Check::Clear;
        }
        scan(&self.kept, reads, since, work)
    }

    /// Whether a number is above those of all kept entries. Where one is kept, `work` counts one look at it. Takes no memory.
    pub fn is_above_all(&self, number: u64, work: &mut Work) -> bool
        ensures above { IsTrue result ↔ AreBelow number self.now.log.kept }
        ensures work { work.new.done ≤ work.old.done + 1 }
    {
        let count = self.kept.len();
        count == 0 || self.kept.entry(count - 1, work).number < number
    }

    /// Adds an entry that changed the cells of these keys. Where the log is full, its oldest entry is dropped. Takes no
    /// memory.
    pub fn append(&mut self, number: u64, keys: KeySet)
        requires { AreBelow number self.old.log.kept }
        ensures log { Pushes self.old.log (record { number = number; keys = keys.keys }) self.new.log }
        ensures keeps { (all : List Noted) → Keeps self.old.log all → Keeps self.new.log (all ++ record { number = number; keys = keys.keys } ∷ []) }
        ensures writers { (notes : List Note) → StandsFor self.old.writers notes → StandsFor self.new.writers (with_all notes keys.keys number) }
    {
        note_all(&mut self.last, keys.keys.as_slice(), number);
        if let Some(dropped) = self.kept.push(KeptEntry { number, keys }) {
            self.dropped = Some(dropped);
        }
    }
}
