use commit_log::{CommitLog, LastWriters};
use history_model::Check;
use ident_rules::{Id, Key, List, NoMemory, read_id};
use outer_ends::Work;
use std::alloc::Global;
use std::test::Fail;
use view_reads::{CellMap, Recorder};
use world_cells::{CellKey, Edge, KeySet, ReadSet, Span};

/// The key of a row.
fn row(number: u64) -> CellKey {
    CellKey::Row(Key {
        kind: 0,
        id: Id::of_number(number),
    })
}

/// The key of a row with an id of letters; that of the row 1 where it is no id.
fn named(text: &str) -> CellKey {
    match read_id(text) {
        Ok(id) => CellKey::Row(Key { kind: 0, id }),
        Err(_) => row(1),
    }
}

/// That key alone.
fn one_key(alloc: Global, key: CellKey) -> Result<List<CellKey>, NoMemory> {
    let mut keys = Vec::new(alloc);
    keys.push(key)?;
    Ok(List::from_vec(keys))
}

/// Adds an entry that changed a cell, if its number is above all others.
fn add(log: &mut CommitLog, alloc: Global, number: u64, key: CellKey) -> Result<(), NoMemory> {
    if log.is_above_all(number, &mut Work::new()) {
        log.append(
            number,
            KeySet {
                keys: one_key(alloc, key)?,
            },
        );
    }
    Ok(())
}

/// A log with an entry of each number from 1 on, which changed the row of its own number.
fn log_of(alloc: Global, window: usize, count: u64) -> Result<CommitLog, NoMemory> {
    let mut log = CommitLog::new(alloc, window.max(1))?;
    for number in 1..=count {
        add(&mut log, alloc, number, row(number))?;
    }
    Ok(log)
}

/// Looks through the rows from a number on, where it is not 0.
fn look(recorder: &mut Recorder<CellMap>, from: u64) -> Result<(), NoMemory> {
    if from == 0 {
        return Ok(());
    }
    let span = Span::Rows {
        kind: 0,
        low: Edge::Closed(Id::of_number(from)),
        high: Edge::End,
    };
    recorder.first_in(&span, &mut Work::new())?;
    Ok(())
}

/// What a look at a key and through the rows from a number on reads of an empty store.
fn reads_of(alloc: Global, key: &CellKey, from: u64) -> Result<ReadSet, NoMemory> {
    let mut recorder = Recorder::new(alloc, CellMap::new(alloc));
    recorder.get(key, &mut Work::new())?;
    look(&mut recorder, from)?;
    let (reads, _writes) = recorder.finish();
    Ok(reads)
}

/// What a log says of a look at a row, and, from a number on where it is not 0, of a look through the rows to the last.
fn said(
    log: &CommitLog,
    alloc: Global,
    key: CellKey,
    from: u64,
    since: u64,
) -> Result<(u64, u64), NoMemory> {
    let reads = reads_of(alloc, &key, from)?;
    let mut work = Work::new();
    let check = log.first_conflict(&reads, since, &mut work);
    Ok((number_of(check), work.done))
}

/// The number that an answer tells: 0 for none, and 1,000 more for an entry that was dropped.
fn number_of(check: Check) -> u64 {
    match check {
        Check::Clear => 0,
        Check::Conflict(number) => number,
        Check::Aged(number) => number.wrapping_add(1_000),
    }
}

#[test]
fn judges_reads(rt: HostRuntime) -> Result<(), Fail> {
    // window, entries; the row that was read, the rows from this one on, the snapshot;
    // the number of a conflict, or of a dropped entry and 1,000, and the entries that were looked at
    let rows = [
        ((1, 2), (7, 0, 0), (1_001, 0)),
        ((1, 2), (7, 0, 1), (0, 0)),
        ((1, 2), (2, 0, 1), (2, 1)),
        ((3, 3), (3, 0, 0), (3, 3)),
        ((3, 3), (9, 2, 0), (2, 3)),
        ((3, 3), (9, 2, 2), (3, 2)),
        ((3, 3), (9, 4, 2), (0, 2)),
        ((3, 10), (8, 0, 7), (8, 3)),
        ((3, 10), (8, 0, 8), (0, 0)),
        ((3, 10), (8, 0, 6), (1_007, 0)),
        ((4, 0), (1, 1, 0), (0, 0)),
    ];
    for ((window, count), (key, from, since), want) in rows {
        let log = log_of(rt.alloc(), window, count)?;
        assert_eq!(rt; said(&log, rt.alloc(), row(key), from, since)?, want);
    }
    Ok(())
}

#[test]
fn rows_of_one_slot_differ(rt: HostRuntime) -> Result<(), Fail> {
    let mut log = CommitLog::new(rt.alloc(), 1_024)?;
    add(&mut log, rt.alloc(), 1, named("bC"))?;
    assert!(rt; named("ab").slot() == named("bC").slot());
    for (text, want) in [("ab", (0, 1)), ("bC", (1, 1)), ("bD", (0, 0))] {
        assert_eq!(rt; said(&log, rt.alloc(), named(text), 0, 0)?, want, "{text}");
    }
    Ok(())
}

#[test]
fn notes_last_writers(rt: HostRuntime) -> Result<(), Fail> {
    let mut last = LastWriters::new(rt.alloc())?;
    last.note(&named("bC"), 4);
    last.note(&CellKey::Counter(0), 6);
    last.note(&named("ab"), 3);
    for (key, want) in [(named("ab"), 4), (CellKey::Counter(0), 6), (row(1), 0)] {
        assert_eq!(rt; last.last(&key), want);
    }
    Ok(())
}
