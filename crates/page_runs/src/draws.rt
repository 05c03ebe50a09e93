//! Keys and write sets that are drawn.
ghost use Rattle.std.specs.Prelude.{◌<◌, IfOk, map};
ghost use Rattle.world_cells.specs.Reads.{AreRisingKeys};

use ident_rules::{Id, Key, NoMemory};
use std::alloc::Global;
use view_reads::{CellMap, Recorder};
use workload_maker::Draws;
use world_cells::{Cell, CellKey, Edge, Span, WriteSet};

/// The key of a resource.
pub fn key(kind: u32, number: u64) -> Key {
    Key {
        kind,
        id: Id::of_number(number),
    }
}

/// The key of a place: of a row, of a way back or of a counter.
pub fn place(number: u64) -> CellKey {
    match number % 8 {
        0 => CellKey::Back {
            to: key(0, number % 50),
            from: key(1, number),
            rel: 2,
        },
        1 => CellKey::Counter((number % 4_000_000_000) as u32),
        _ => CellKey::Row(key((number % 3) as u32, number)),
    }
}

/// A span that begins or ends at a place.
pub fn span_at(number: u64, from_it: bool) -> Span {
    let edge = Edge::Closed(Id::of_number(number));
    if number % 8 == 0 {
        Span::Backs {
            to: key(0, number % 50),
            after: Some((key(1, number), 1)),
        }
    } else if from_it {
        Span::Rows {
            kind: (number % 3) as u32,
            low: edge,
            high: Edge::End,
        }
    } else {
        Span::Rows {
            kind: (number % 3) as u32,
            low: Edge::End,
            high: edge,
        }
    }
}

/// A write set of 1 to 50 places, a quarter of which are removed.
pub fn drawn_set(alloc: Global, draws: &mut Draws, places: u64) -> Result<WriteSet, NoMemory>
    requires { 0 < places }
    ensures { IfOk result (λ w. AreRisingKeys (map (λ x. x.key) w.cells)) }
{
    let mut recorder = Recorder::new(alloc, CellMap::new(alloc));
    let count = 1 + draws.draw(50);
    for _ in 0..count {
        let key = place(draws.draw(places));
        match draws.draw(4) {
            0 => recorder.remove(key)?,
            1 => recorder.put(key, Cell::Back)?,
            _ => recorder.put(key, Cell::Counter(draws.draw(3)))?,
        }
    }
    let (_, writes) = recorder.finish();
    Ok(writes)
}
