//! The last writers of cells, by slots of their keys and by groups.
ghost use Rattle.std.specs.Prelude.{◌≡◌, ◌<◌, ◌∷◌, [], List, length, replicate, IfOk};
ghost use Rattle.world_cells.specs.Slots.{slot_of, group_of_span};
ghost use Rattle.commit_log.specs.Writers.{Note, IsTable, StandsFor, last_of_slot, last_of_group, last_number, last_number_in, raised, with_note};

use ident_rules::NoMemory;
use std::alloc::Global;
use std::marker::Model;
use world_cells::{CellKey, GROUPS, SLOTS, Span};

/// For each slot of keys, and for each group of them, the greatest number that was noted for one of its keys.
///
/// Keys of different cells may share a slot or a group. So a number says that no later entry changed a cell there, and
/// leaves a doubt as to which cell the entry of that number changed.
#[derive(Drop)]
pub struct LastWriters {
    slots: Vec<u64>,
    groups: Vec<u64>,
}

impl Model for LastWriters {
    ghost use Rattle.commit_log.specs.Writers.{Writers, IsTable};

    ghost Value = { Writers };

    ghost view = { λ w. record { slots = w.slots.items; groups = w.groups.items } };

    ghost invariant = { λ w. IsTable (record { slots = w.slots.items; groups = w.groups.items }) };
}

/// That many zeros. Its one error is want of memory.
fn zeros(alloc: Global, count: u32) -> Result<Vec<u64>, NoMemory>
    ensures { IfOk result (λ v. v.items ≡ replicate count 0) }
{
    let mut numbers = Vec::with_capacity(alloc, count as usize)?;
    for _ in 0..count {
        numbers.push(0)?;
    }
    Ok(numbers)
}

/// Puts a number at a place where it is greater than what stands there.
fn raise(numbers: &mut Vec<u64>, at: usize, number: u64)
    requires { at < length numbers.old.items }
    ensures { numbers.new.items ≡ raised numbers.old.items at number }
{
    let last = numbers[at];
    numbers[at] = if last < number { number } else { last };
}

impl LastWriters {
    /// Nothing noted. Its one error is want of memory.
    pub fn new(alloc: Global) -> Result<LastWriters, NoMemory>
        ensures table { IfOk result IsTable }
        ensures notes { IfOk result (λ w. StandsFor w []) }
    {
        Ok(LastWriters {
            slots: zeros(alloc, SLOTS)?,
            groups: zeros(alloc, GROUPS)?,
        })
    }

    /// Notes that the entry of a number changed the cell of a key. Takes no memory.
    pub fn note(&mut self, key: &CellKey, number: u64)
        ensures value { self.new ≡ with_note self.old key.now number }
        ensures notes { (notes : List Note) → StandsFor self.old notes → StandsFor self.new ((key.now, number) ∷ notes) }
    {
        raise(&mut self.slots, key.slot() as usize, number);
        raise(&mut self.groups, key.group() as usize, number);
    }

    /// The greatest number noted for a key of the same slot, 0 where there is none. Takes no memory.
    pub fn last(&self, key: &CellKey) -> u64
        ensures value { result ≡ last_number self.now key.now }
        ensures notes { (notes : List Note) → StandsFor self.now notes → result ≡ last_of_slot (slot_of key.now) notes }
    {
        self.slots[key.slot() as usize]
    }

    /// The greatest number noted for a key of the span's group, 0 where there is none. Takes no memory.
    pub fn last_in(&self, span: &Span) -> u64
        ensures value { result ≡ last_number_in self.now span.now }
        ensures notes { (notes : List Note) → StandsFor self.now notes → result ≡ last_of_group (group_of_span span.now) notes }
    {
        self.groups[span.group() as usize]
    }
}
