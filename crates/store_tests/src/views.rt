use ident_rules::{Id, Key, List, NoMemory};
use outer_ends::Work;
use std::alloc::Global;
use std::test::Fail;
use view_reads::{CellMap, Recorder, View};
use world_cells::{Cell, CellKey, Edge, Span, WriteSet, Written};

fn key(kind: u32, number: u64) -> Key {
    Key {
        kind,
        id: Id::of_number(number),
    }
}

/// The key of a row, or of a way back from it.
fn place(back: bool, number: u64) -> CellKey {
    if back {
        CellKey::Back {
            to: key(0, 1),
            from: key(1, number),
            rel: 3,
        }
    } else {
        CellKey::Row(key(1, number))
    }
}

/// All places of one form.
fn places(back: bool) -> Span {
    if back {
        Span::Backs {
            to: key(0, 1),
            after: None,
        }
    } else {
        Span::Rows {
            kind: 1,
            low: Edge::End,
            high: Edge::End,
        }
    }
}

/// A write of that value.
fn written(key: CellKey, value: u64) -> Written {
    Written {
        key,
        cell: Some(Cell::Counter(value)),
    }
}

/// The cells 2, 4 and 6, and cells outside of all spans.
fn filled_map(alloc: Global, back: bool) -> Result<CellMap, NoMemory> {
    let mut cells = Vec::new(alloc);
    for key in [
        place(back, 6),
        place(back, 2),
        place(back, 4),
        CellKey::Row(key(0, 1)),
        CellKey::Counter(1),
    ] {
        cells.push(written(key, 1))?;
    }
    let mut map = CellMap::new(alloc);
    map.apply(WriteSet {
        cells: List::from_vec(cells),
    })?;
    Ok(map)
}

/// Whether a cell was found at the place with this number, or none where that is 0.
fn is_at(found: Option<(&CellKey, &Cell)>, back: bool, number: u64, value: u64) -> bool {
    match found {
        Some((at, Cell::Counter(n))) => *at == place(back, number) && *n == value,
        Some(_) => false,
        None => number == 0,
    }
}

/// Puts the value 2 at these places.
fn put_all(recorder: &mut Recorder<CellMap>, back: bool, numbers: &[u64]) -> Result<(), NoMemory> {
    for number in numbers {
        recorder.put(place(back, *number), Cell::Counter(2))?;
    }
    Ok(())
}

/// Removes what stands at these places.
fn remove_all(
    recorder: &mut Recorder<CellMap>,
    back: bool,
    numbers: &[u64],
) -> Result<(), NoMemory> {
    for number in numbers {
        recorder.remove(place(back, *number))?;
    }
    Ok(())
}

/// Puts cells outside of the span.
fn put_outside(recorder: &mut Recorder<CellMap>, back: bool) -> Result<(), NoMemory> {
    for key in [
        place(!back, 5),
        CellKey::Row(key(0, 9)),
        CellKey::Counter(0),
    ] {
        recorder.put(key, Cell::Counter(3))?;
    }
    Ok(())
}

/// Whether a span's first and last cells are at these places.
fn meets(
    recorder: &mut Recorder<CellMap>,
    span: &Span,
    work: &mut Work,
    back: bool,
    first: (u64, u64),
    last: (u64, u64),
) -> Result<bool, NoMemory> {
    let is_first = is_at(recorder.first_in(span, work)?, back, first.0, first.1);
    let is_last = is_at(recorder.last_in(span, work)?, back, last.0, last.1);
    Ok(is_first && is_last)
}

/// Whether the first and the last place are met behind these writes.
fn meets_behind(
    alloc: Global,
    back: bool,
    put: &[u64],
    removed: &[u64],
    first: (u64, u64),
    last: (u64, u64),
) -> Result<bool, NoMemory> {
    let mut recorder = Recorder::new(alloc, filled_map(alloc, back)?);
    put_all(&mut recorder, back, put)?;
    remove_all(&mut recorder, back, removed)?;
    put_outside(&mut recorder, back)?;
    let mut work = Work::new();
    meets(&mut recorder, &places(back), &mut work, back, first, last)
}

#[test]
fn meets_first_and_last(rt: HostRuntime) -> Result<(), Fail> {
    // what is put, what is removed, the first place and its value, the last place and its value
    let rows: [(&[u64], &[u64], (u64, u64), (u64, u64)); 11] = [
        (&[], &[], (2, 1), (6, 1)),
        (&[1], &[], (1, 2), (6, 1)),
        (&[3], &[], (2, 1), (6, 1)),
        (&[7, 10], &[], (2, 1), (10, 2)),
        (&[], &[2], (4, 1), (6, 1)),
        (&[], &[6], (2, 1), (4, 1)),
        (&[], &[2, 6], (4, 1), (4, 1)),
        (&[], &[2, 4, 6], (0, 0), (0, 0)),
        (&[], &[1, 3, 7], (2, 1), (6, 1)),
        (&[2, 6], &[], (2, 2), (6, 2)),
        (&[3, 5], &[2, 4, 6], (3, 2), (5, 2)),
    ];
    for back in [false, true] {
        for (put, removed, first, last) in rows {
            assert!(rt; meets_behind(rt.alloc(), back, put, removed, first, last)?);
        }
    }
    Ok(())
}

/// The places behind the one with this number, or from the top before it; all where that is 0.
fn places_past(back: bool, from_top: bool, number: u64) -> Span {
    if number == 0 {
        return places(back);
    }
    let edge = Edge::Open(Id::of_number(number));
    match (back, from_top) {
        (true, _) => Span::Backs {
            to: key(0, 1),
            after: Some((key(1, number), 3)),
        },
        (false, true) => Span::Rows {
            kind: 1,
            low: Edge::End,
            high: edge,
        },
        (false, false) => Span::Rows {
            kind: 1,
            low: edge,
            high: Edge::End,
        },
    }
}

/// How many parts are read by looks past these places, one after the other.
fn parts_of_looks(
    alloc: Global,
    back: bool,
    from_top: bool,
    numbers: &[u64],
) -> Result<usize, NoMemory> {
    let mut recorder = Recorder::new(alloc, filled_map(alloc, back)?);
    let mut work = Work::new();
    for number in numbers {
        let span = places_past(back, from_top, *number);
        let _ = if from_top {
            recorder.last_in(&span, &mut work)?
        } else {
            recorder.first_in(&span, &mut work)?
        };
    }
    let (reads, _) = recorder.finish();
    Ok(reads.parts.as_slice().len())
}

#[test]
fn reads_a_walk_as_one_part(rt: HostRuntime) -> Result<(), Fail> {
    // ways back or rows, from the top or not, the places behind which is looked, the parts
    let rows: [(bool, bool, &[u64], usize); 7] = [
        (false, false, &[0, 2, 4, 6], 1),
        (true, false, &[0, 2, 4, 6], 1),
        (false, true, &[0, 6, 4, 2], 1),
        (false, false, &[2, 4], 1),
        (false, false, &[0, 4], 2),
        (false, false, &[0, 2, 2, 0], 3),
        (true, true, &[0, 2], 2),
    ];
    for (back, from_top, numbers, parts) in rows {
        assert_eq!(rt; parts_of_looks(rt.alloc(), back, from_top, numbers)?, parts);
    }
    Ok(())
}

/// Whether a key is found.
fn finds(recorder: &mut Recorder<CellMap>, number: u64) -> Result<bool, NoMemory> {
    Ok(
        recorder
            .get(&place(false, number), &mut Work::new())?
            .is_some(),
    )
}

/// How many keys are noted by looks at three cells, a removed one among them; 0 where one is answered otherwise.
fn keys_of_looks(alloc: Global) -> Result<usize, NoMemory> {
    let mut recorder = Recorder::new(alloc, filled_map(alloc, false)?);
    recorder.remove(place(false, 4))?;
    let found = finds(&mut recorder, 2)? && !finds(&mut recorder, 4)? && !finds(&mut recorder, 5)?;
    recorder.forget_writes();
    let again = finds(&mut recorder, 4)?;
    let (reads, writes) = recorder.finish();
    if !found || !again || !writes.cells.as_slice().is_empty() {
        return Ok(0);
    }
    Ok(reads.keys.as_slice().len())
}

#[test]
fn notes_the_keys_it_looks_at(rt: HostRuntime) -> Result<(), Fail> {
    assert_eq!(rt; keys_of_looks(rt.alloc())?, 4);
    Ok(())
}

/// The writes of a recorder over a shelf.
fn writes_over(alloc: Global) -> Result<WriteSet, NoMemory> {
    let shelf = filled_map(alloc, false)?;
    let mut recorder = Recorder::new(alloc, &shelf);
    for number in [5, 1, 10, 5] {
        recorder.put(place(false, number), Cell::Counter(number))?;
    }
    recorder.remove(place(false, 3))?;
    Ok(recorder.finish().1)
}

/// Whether writes stand in order, the third of them removed.
fn are_in_order(writes: &[Written]) -> bool {
    match writes {
        [one, two, three, four] => {
            one.key == place(false, 1)
                && two.key == place(false, 3)
                && two.cell.is_none()
                && three.key == place(false, 5)
                && three.cell.is_some()
                && four.key == place(false, 10)
        }
        _ => false,
    }
}

#[test]
fn keeps_writes_in_order(rt: HostRuntime) -> Result<(), Fail> {
    let writes = writes_over(rt.alloc())?;
    assert!(rt; are_in_order(writes.cells.as_slice()));
    Ok(())
}

/// A map behind writes.
fn applied(alloc: Global) -> Result<CellMap, NoMemory> {
    let mut cells = Vec::new(alloc);
    for (number, cell) in [
        (2, None),
        (3, Some(Cell::Counter(5))),
        (3, None),
        (4, Some(Cell::Counter(7))),
    ] {
        cells.push(Written {
            key: place(false, number),
            cell,
        })?;
    }
    let mut map = filled_map(alloc, false)?;
    map.apply(WriteSet {
        cells: List::from_vec(cells),
    })?;
    Ok(map)
}

/// The number in a cell of a map, 0 where there is none.
fn number_at(map: &CellMap, number: u64) -> u64 {
    match map.get(&place(false, number), &mut Work::new()) {
        Some(Cell::Counter(n)) => *n,
        _ => 0,
    }
}

#[test]
fn applies_writes(rt: HostRuntime) -> Result<(), Fail> {
    let map = applied(rt.alloc())?;
    for (number, value) in [(2, 0), (3, 5), (4, 7), (6, 1)] {
        assert_eq!(rt; number_at(&map, number), value, "cell {number}");
    }
    Ok(())
}
