ghost use Rattle.std.specs.Prelude.{IfOk, map};
ghost use Rattle.world_cells.specs.Reads.{AreRisingKeys};

use ident_rules::{Id, Key, NoMemory};
use ordered_pages::Pages;
use outer_ends::Work;
use std::alloc::Global;
use std::test::Fail;
use view_reads::{CellMap, Recorder, View};
use world_cells::{Cell, CellKey, Edge, Span, WriteSet};

/// The key of a row.
fn place(number: u64) -> CellKey {
    CellKey::Row(Key {
        kind: (number % 3) as u32,
        id: Id::of_number(number),
    })
}

/// Writes over a view: from the first number on, each `step`-th of `count` cells is put with a value, or removed where that
/// is 0.
fn writes_over<V: View>(
    alloc: Global,
    view: V,
    row: (u64, u64, u64, u64),
) -> Result<WriteSet, NoMemory>
    ensures { IfOk result (λ w. AreRisingKeys (map (λ w. w.key) w.cells)) }
{
    let (first, step, count, value) = row;
    let mut recorder = Recorder::new(alloc, view);
    for turn in 0..count {
        let key = place(first.wrapping_add(turn.wrapping_mul(step)) % 1000);
        if value == 0 {
            recorder.remove(key)?;
        } else {
            recorder.put(key, Cell::Counter(value))?;
        }
    }
    let (_, writes) = recorder.finish();
    Ok(writes)
}

/// Does writes in pages, and answers how many keys they change.
fn write_pages(
    alloc: Global,
    pages: &mut Pages,
    row: (u64, u64, u64, u64),
) -> Result<usize, NoMemory> {
    let writes = writes_over(alloc, &*pages, row)?;
    let (ready, keys) = pages.prepare(&writes, &mut Work::new())?;
    pages.install(ready);
    Ok(keys.keys.as_slice().len())
}

/// Whether two cells have one number, or neither is there.
fn have_one_number(one: Option<&Cell>, other: Option<&Cell>) -> bool {
    match (one, other) {
        (Some(Cell::Counter(x)), Some(Cell::Counter(y))) => x == y,
        (None, None) => true,
        _ => false,
    }
}

/// Whether two cells that were found have one key, or neither is there.
fn have_one_key(one: Option<(&CellKey, &Cell)>, other: Option<(&CellKey, &Cell)>) -> bool {
    match (one, other) {
        (Some((x, _)), Some((y, _))) => *x == *y,
        (None, None) => true,
        _ => false,
    }
}

/// The rows of a type from a number on, or up to it.
fn span_at(number: u64, from_it: bool) -> Span {
    let edge = Edge::Closed(Id::of_number(number));
    if from_it {
        Span::Rows {
            kind: 1,
            low: edge,
            high: Edge::End,
        }
    } else {
        Span::Rows {
            kind: 1,
            low: Edge::End,
            high: edge,
        }
    }
}

/// Whether pages and a map answer alike at a number, and in the spans from it and up to it.
fn answer_alike(pages: &Pages, map: &CellMap, number: u64) -> bool {
    let mut work = Work::new();
    let key = place(number);
    let up = span_at(number, true);
    let down = span_at(number, false);
    have_one_number(pages.get(&key, &mut work), map.get(&key, &mut work))
        && have_one_key(pages.first_in(&up, &mut work), map.first_in(&up, &mut work))
        && have_one_key(
            pages.last_in(&down, &mut work),
            map.last_in(&down, &mut work),
        )
}

/// The first number below 1,001 at which pages and a map answer differently, or 1,001.
fn first_difference(pages: &Pages, map: &CellMap) -> u64 {
    for number in 0..1_001 {
        if !answer_alike(pages, map, number) {
            return number;
        }
    }
    1_001
}

/// Pages and a map with the cells of 600 numbers, all 1.
fn both_filled(alloc: Global) -> Result<(Pages, CellMap), NoMemory> {
    let mut pages = Pages::new(alloc);
    let mut map = CellMap::new(alloc);
    let row = (0, 7, 600, 1);
    write_pages(alloc, &mut pages, row)?;
    map.apply(writes_over(alloc, &map, row)?)?;
    Ok((pages, map))
}

#[test]
fn answers_as_the_plain_map(rt: HostRuntime) -> Result<(), Fail> {
    let (mut pages, mut map) = both_filled(rt.alloc())?;
    // the first number, the step, how many, the value or 0 to remove; how many keys change
    let rows = [
        ((0, 7, 600, 1), 0),
        ((0, 7, 300, 2), 300),
        ((1, 3, 500, 3), 500),
        ((0, 1, 900, 0), 724),
        ((0, 1, 1000, 0), 70),
        ((5, 1, 200, 4), 200),
    ];
    for (row, changed) in rows {
        assert_eq!(rt;
            write_pages(rt.alloc(), &mut pages, row)?,
            changed,
            "{changed} keys"
        );
        map.apply(writes_over(rt.alloc(), &map, row)?)?;
        assert_eq!(rt; first_difference(&pages, &map), 1_001, "{changed} keys");
    }
    Ok(())
}

/// How many cells the leaves of pages have.
fn cells_of(pages: &Pages) -> Result<usize, NoMemory> {
    let lengths = pages.leaves()?;
    let mut sum: usize = 0;
    for length in lengths.as_slice() {
        sum = sum.saturating_add(*length);
    }
    Ok(sum)
}

#[test]
fn snapshots_stay(rt: HostRuntime) -> Result<(), Fail> {
    let (mut pages, map) = both_filled(rt.alloc())?;
    let before = pages.snapshot()?;
    write_pages(rt.alloc(), &mut pages, (0, 1, 1_000, 0))?;
    assert_eq!(rt; first_difference(&before, &map), 1_001);
    assert_eq!(rt; cells_of(&before)?, 600);
    assert_eq!(rt; cells_of(&pages)?, 0);
    Ok(())
}

/// Pages with two cells.
fn two_cells(alloc: Global) -> Result<Pages, NoMemory> {
    let mut cells = Vec::new(alloc);
    cells.push((CellKey::Counter(1), Cell::Counter(5)))?;
    cells.push((CellKey::Counter(2), Cell::Counter(6)))?;
    Pages::of_cells(alloc, cells)
}

#[test]
fn holds_given_cells(rt: HostRuntime) -> Result<(), Fail> {
    let pages = two_cells(rt.alloc())?;
    let found = pages.get(&CellKey::Counter(2), &mut Work::new());
    assert!(rt; have_one_number(found, Some(&Cell::Counter(6))));
    Ok(())
}
