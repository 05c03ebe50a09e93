//! Pages against the plain map.
ghost use Rattle.std.specs.Prelude.{◌<◌};

use crate::digests::{Digest, digest_of};
use crate::draws::{drawn_set, place, span_at};
use ident_rules::NoMemory;
use ordered_pages::Pages;
use outer_ends::Work;
use std::alloc::Global;
use view_reads::{CellMap, View};
use workload_maker::Draws;
use world_cells::{Cell, CellKey};

/// What came of a run.
#[derive(Drop)]
pub struct Compared {
    /// How many write sets there were.
    pub sets: u64,
    /// How many keys they had.
    pub keys: u64,
    /// How many cells they changed.
    pub changed: u64,
    /// How many cells there are at the end.
    pub cells: u64,
    /// How many answers of pages and of the map differed.
    pub differences: u64,
    /// A digest of the cells at the end.
    pub digest: u64,
}

/// Pages and the map, with the snapshots that were kept and what was there then.
#[derive(Drop)]
struct Stores {
    pages: Pages,
    map: CellMap,
    kept: Vec<(Pages, Digest)>,
}

/// Whether two cells are alike, or neither is there.
fn are_alike(one: Option<&Cell>, other: Option<&Cell>) -> bool {
    match (one, other) {
        (None, None) => true,
        (Some(Cell::Counter(x)), Some(Cell::Counter(y))) => x == y,
        (Some(Cell::Back), Some(Cell::Back)) => true,
        _ => false,
    }
}

/// Whether two cells that were found are alike, or neither was.
fn are_found_alike(one: Option<(&CellKey, &Cell)>, other: Option<(&CellKey, &Cell)>) -> bool {
    match (one, other) {
        (None, None) => true,
        (Some((key, cell)), Some((other_key, other))) => {
            *key == *other_key && are_alike(Some(cell), Some(other))
        }
        _ => false,
    }
}

impl Stores {
    /// Whether both answer alike at a place and in the spans at it.
    fn agree_at(&self, number: u64) -> bool {
        let mut work = Work::new();
        let key = place(number);
        let up = span_at(number, true);
        let down = span_at(number, false);
        are_alike(
            self.pages.get(&key, &mut work),
            self.map.get(&key, &mut work),
        ) && are_found_alike(
            self.pages.first_in(&up, &mut work),
            self.map.first_in(&up, &mut work),
        ) && are_found_alike(
            self.pages.last_in(&down, &mut work),
            self.map.last_in(&down, &mut work),
        )
    }

    /// How many answers differ, at places that are drawn.
    fn differences(&self, draws: &mut Draws, places: u64) -> u64
        requires { 0 < places }
    {
        let mut count = 0_u64;
        for _ in 0..20 {
            if !self.agree_at(draws.draw(places)) {
                count = count.wrapping_add(1);
            }
        }
        count
    }

    /// Does a write set that is drawn in both, and answers how many keys it has and how many it changes.
    fn write(
        &mut self,
        alloc: Global,
        draws: &mut Draws,
        places: u64,
    ) -> Result<(u64, u64), NoMemory>
        requires { 0 < places }
    {
        let writes = drawn_set(alloc, draws, places)?;
        let (ready, keys) = self.pages.prepare(&writes, &mut Work::new())?;
        self.pages.install(ready);
        let count = writes.cells.as_slice().len() as u64;
        self.map.apply(writes)?;
        Ok((count, keys.keys.as_slice().len() as u64))
    }

    /// Keeps a snapshot, and what the map has now.
    fn keep(&mut self, places: u64) -> Result<(), NoMemory> {
        let snapshot = self.pages.snapshot()?;
        let digest = digest_of(&self.map, places);
        self.kept.push((snapshot, digest))?;
        Ok(())
    }

    /// How many of the kept snapshots have not what was there then.
    fn lost(&self, places: u64) -> u64 {
        let mut count = 0_u64;
        for (snapshot, digest) in self.kept.as_slice() {
            if digest_of(snapshot, places) != *digest {
                count = count.wrapping_add(1);
            }
        }
        count
    }
}

/// So many write sets over so many places.
pub fn compare(alloc: Global, places: u64, sets: u64) -> Result<Compared, NoMemory>
    requires { 0 < places }
{
    let mut draws = Draws::new(places);
    let mut stores = Stores {
        pages: Pages::new(alloc),
        map: CellMap::new(alloc),
        kept: Vec::new(alloc),
    };
    let (mut all, mut changed, mut differences) = (0_u64, 0_u64, 0_u64);
    for turn in 0..sets {
        if turn % 50 == 0 {
            stores.keep(places)?;
        }
        let (keys, now) = stores.write(alloc, &mut draws, places)?;
        all = all.wrapping_add(keys);
        changed = changed.wrapping_add(now);
        differences = differences.wrapping_add(stores.differences(&mut draws, places));
    }
    let plain = digest_of(&stores.map, places);
    if digest_of(&stores.pages, places) != plain {
        differences = differences.wrapping_add(1);
    }
    Ok(Compared {
        sets,
        keys: all,
        changed,
        cells: plain.cells,
        differences: differences.wrapping_add(stores.lost(places)),
        digest: plain.digest,
    })
}
