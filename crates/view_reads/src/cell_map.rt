ghost use Rattle.std.specs.Prelude.{◌≡◌, [], OnOk, OnErr};
ghost use Rattle.world_cells.specs.Reads.{overlay};
ghost use Rattle.view_reads.specs.Merging.{nothing, IsOverlaid};

use crate::View;
use crate::writes::Writes;
use ident_rules::NoMemory;
use outer_ends::Work;
use std::alloc::Global;
use std::marker::Model;
use world_cells::{Cell, CellKey, Span, WriteSet};

/// A map of cells in one sorted list, for stores of a few thousand cells. It is searched by halves; a write shifts what
/// stands behind it. Contracts see the list of what was written; the map is `overlay nothing` of it.
#[derive(Drop)]
pub struct CellMap {
    cells: Writes,
}

impl Model for CellMap {
    ghost use Rattle.std.specs.Prelude.{List as Listed};
    ghost use Rattle.world_cells.specs.declared.sets.Written.{Written};

    ghost Value = { Listed Written };

    ghost view = { λ m. m.cells };
}

impl CellMap {
    /// No cells. Takes no memory.
    pub fn new(alloc: Global) -> CellMap
        ensures { result ≡ [] }
    {
        CellMap {
            cells: Writes::new(alloc),
        }
    }

    /// Puts and removes cells, all of them or none; of two writes with one key the first counts. Its one error is want of
    /// memory, after which nothing has changed.
    pub fn apply(&mut self, writes: WriteSet) -> Result<(), NoMemory>
        ensures ok { OnOk result (IsOverlaid (overlay nothing self.old) writes.cells (overlay nothing self.new)) }
        ensures err { OnErr result (self.new ≡ self.old) }
    {
        self.cells.write_all(writes.cells)
    }
}

impl View for CellMap {
    ghost use Rattle.world_cells.specs.Reads.{overlay};
    ghost use Rattle.view_reads.specs.Merging.{nothing};

    ghost cells = { λ m. overlay nothing m };

    fn get(&self, key: &CellKey, work: &mut Work) -> Option<&Cell> {
        work.add();
        match self.cells.at(key) {
            Some(written) => written.cell.as_ref(),
            None => None,
        }
    }

    fn first_in(&self, span: &Span, work: &mut Work) -> Option<(&CellKey, &Cell)> {
        work.add();
        self.cells.met_put(false, span)
    }

    fn last_in(&self, span: &Span, work: &mut Work) -> Option<(&CellKey, &Cell)> {
        work.add();
        self.cells.met_put(true, span)
    }
}
