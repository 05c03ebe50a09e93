ghost use Rattle.std.specs.Prelude.{◌≡◌, true, ◌≤◌, ◌+◌, length, [], IfOk, OnOk, OnErr, Some, None, map};
ghost use Rattle.std.specs.Option.{option_copied, option_map};
ghost use Rattle.world_cells.specs.Reads.{overlay, AreRisingKeys};
ghost use Rattle.view_reads.specs.Counts.{counted};
ghost use Rattle.view_reads.specs.Narrowing.{CanNarrow};
ghost use Rattle.view_reads.specs.Places.{Wrote};
ghost use Rattle.view_reads.specs.Recording.{read_key};

use crate::View;
use crate::joining::add_part;
use crate::merging::Overlaid;
use crate::writes::Writes;
use ident_rules::{List, NoMemory};
use outer_ends::Work;
use std::alloc::Global;
use std::marker::Model;
use world_cells::{Cell, CellKey, Part, ReadSet, Span, WriteSet};

/// A view, with what was read of it and what is written over it.
#[derive(Drop)]
pub struct Recorder<V> {
    alloc: Global,
    cells: Overlaid<V>,
    keys: Vec<CellKey>,
    parts: Vec<Part>,
}

impl<V> Model for Recorder<V> {
    ghost use Rattle.view_reads.specs.Recording.{Recording};

    ghost Value = { Recording V };

    ghost view = { λ r. record { store = r.cells.view; reads = record { keys = r.keys.items; parts = r.parts.items }; writes = r.cells.writes } };
}

impl<V: View> Recorder<V> {
    ghost use Rattle.std.specs.Prelude.{⊤};
    ghost use Rattle.std.specs.Borrow.{sem, follows_so};
    ghost use mathlib.Core.Option.{none};
    ghost use Rattle.view_reads.specs.contracts.recorder.Recorder.{the_row};
    ghost use Rattle.view_reads.specs.Recording.{Looked, LookedFirst, LookedLast};

    /// Over a view, with nothing read and nothing written. Later calls take their memory from `alloc`.
    pub fn new(alloc: Global, view: V) -> Recorder<V>
        ensures { result ≡ record { store = view; reads = record { keys = []; parts = [] }; writes = [] } }
    {
        Recorder {
            alloc,
            cells: Overlaid {
                view,
                writes: Writes::new(alloc),
            },
            keys: Vec::new(alloc),
            parts: Vec::new(alloc),
        }
    }

    /// The cell at a key, as it stands under what is written here; None exactly where there is none. The key is added to
    /// the read set, also where the answer is None.
    ///
    /// Its one error is want of memory, after which the recorder is as before.
    pub fn get(&mut self, key: &CellKey, work: &mut Work) -> Result<Option<&Cell>, NoMemory>
        ensures* after { sem 𝓛 (follows_so (the_row V.row) (the_row V.row) self.entry.ghost_name none (λ _ _. ⊤) (λ n. Looked V.cells self.old key.now result n)) }
        ensures work { OnOk result (work.new.done ≡ counted work.old.done) }
        ensures unread { OnErr result (work.new.done ≡ work.old.done) }
    {
        self.note(key)?;
        Ok(self.cells.at(key, work))
    }

    /// The first cell of a span and its key, as the span stands under what is written here; None exactly where it has no
    /// cell. The part of the span from its low edge to the cell that was found is added to the read set, and the whole span
    /// where none was found; a look that begins just behind the cell that the last look found widens that part, so that a
    /// walk from cell to cell is one part. The view is looked at once, and once more for each removed cell that is passed.
    ///
    /// Its one error is want of memory, after which the recorder is as before.
    pub fn first_in(
        &mut self,
        span: &Span,
        work: &mut Work,
    ) -> Result<Option<(&CellKey, &Cell)>, NoMemory>
        ensures* after { sem 𝓛 (follows_so (the_row V.row) (the_row V.row) self.entry.ghost_name none (λ _ _. ⊤) (λ n. LookedFirst V.cells self.old span.now result n)) }
        ensures work { work.new.done ≤ work.old.done + length self.old.writes + 1 }
        ensures rises { work.old.done ≤ work.new.done }
    {
        let alloc = self.alloc;
        let found = self.cells.first_in(span, work);
        let key = copied_key(alloc, &found)?;
        add_part(alloc, &mut self.parts, false, span, key)?;
        Ok(found)
    }

    /// The last cell of a span and its key, as the span stands under what is written here; None exactly where it has no
    /// cell. The part of the span from its high edge down to the cell that was found is added to the read set, and the whole
    /// span where none was found, as one part with the last one where it goes on there. The view is looked at as in `first_in`; but a span of ways back has no edge above, so where
    /// its last cell is overwritten here, all of it is walked through.
    ///
    /// Its one error is want of memory, after which the recorder is as before.
    pub fn last_in(
        &mut self,
        span: &Span,
        work: &mut Work,
    ) -> Result<Option<(&CellKey, &Cell)>, NoMemory>
        ensures* after { sem 𝓛 (follows_so (the_row V.row) (the_row V.row) self.entry.ghost_name none (λ _ _. ⊤) (λ n. LookedLast V.cells self.old span.now result n)) }
        ensures work { CanNarrow true span.now → work.new.done ≤ work.old.done + length self.old.writes + 1 }
        ensures rises { work.old.done ≤ work.new.done }
    {
        let alloc = self.alloc;
        let found = self.cells.last_in(span, work);
        let key = copied_key(alloc, &found)?;
        add_part(alloc, &mut self.parts, true, span, key)?;
        Ok(found)
    }

    /// Writes a cell over the view.
    ///
    /// Its one error is want of memory, after which the recorder is as before.
    pub fn put(&mut self, key: CellKey, cell: Cell) -> Result<(), NoMemory>
        ensures ok { OnOk result ((self.new.store ≡ self.old.store) × (self.new.reads ≡ self.old.reads) × Wrote self.old.writes key (Some cell) self.new.writes) }
        ensures err { OnErr result (self.new ≡ self.old) }
    {
        self.cells.writes.write(key, Some(cell))
    }

    /// Removes what stands at a key, if anything.
    ///
    /// Its one error is want of memory, after which the recorder is as before.
    pub fn remove(&mut self, key: CellKey) -> Result<(), NoMemory>
        ensures ok { OnOk result ((self.new.store ≡ self.old.store) × (self.new.reads ≡ self.old.reads) × Wrote self.old.writes key None self.new.writes) }
        ensures err { OnErr result (self.new ≡ self.old) }
    {
        self.cells.writes.write(key, None)
    }

    /// Leaves nothing written. What was read stays read. Takes no memory.
    pub fn forget_writes(&mut self)
        ensures { self.new ≡ record self.old { writes = [] } }
    {
        self.cells.writes.clear();
    }

    /// What was read and what is written, in strictly ascending order of keys. Takes no memory.
    pub fn finish(self) -> (ReadSet, WriteSet)
        ensures sets { result ≡ (self.reads, record { cells = self.writes }) }
        ensures rising { AreRisingKeys (map (λ w. w.key) result.1.cells) }
    {
        let Recorder {
            alloc: _,
            cells,
            keys,
            parts,
        } = self;
        let reads = ReadSet {
            keys: List::from_vec(keys),
            parts: List::from_vec(parts),
        };
        let Overlaid { view: _, writes } = cells;
        let cells = writes.into_list();
        (reads, WriteSet { cells })
    }

    /// Adds a key to the read set.
    fn note(&mut self, key: &CellKey) -> Result<(), NoMemory>
        ensures ok { OnOk result (self.new ≡ record self.old { reads = read_key self.old.reads key.now }) }
        ensures err { OnErr result (self.new ≡ self.old) }
    {
        let copy = key.copy(self.alloc)?;
        self.keys.push(copy)?;
        Ok(())
    }
}

/// The key of what was found, if anything was.
fn copied_key(alloc: Global, found: &Option<(&CellKey, &Cell)>) -> Result<Option<CellKey>, NoMemory>
    ensures { IfOk result (λ key. key ≡ option_map (λ p. p.0.now) found.now) }
{
    match found {
        Some((key, _)) => Ok(Some(key.copy(alloc)?)),
        None => Ok(None),
    }
}
