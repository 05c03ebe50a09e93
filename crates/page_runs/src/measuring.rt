//! Times of pages.
ghost use Rattle.std.specs.Prelude.{◌<◌, IfOk, map};
ghost use Rattle.world_cells.specs.Reads.{AreRisingKeys};

use crate::digests::{past, rows_from};
use crate::draws::key;
use ident_rules::{Id, List, NoMemory, Text};
use ordered_pages::Pages;
use outer_ends::Work;
use resource_schema::AttrValue;
use std::alloc::Global;
use std::io;
use std::rt::Clock;
use std::time::Instant;
use view_reads::{CellMap, Recorder};
use world_cells::{Cell, CellKey, Edge, Link, Row, WriteSet};

/// A row with a text and a link.
fn article(alloc: Global, number: u64, turn: u64) -> Result<Cell, NoMemory> {
    let mut values = Vec::new(alloc);
    values.push(AttrValue::Int((turn % 1_000_000) as i64))?;
    values.push(AttrValue::Text(Text::from_str(alloc, "a title")?))?;
    let mut links = Vec::new(alloc);
    links.push(Link::One(Some(Id::of_number(turn % 10))))?;
    Ok(Cell::Row(Row {
        key: key(1, number),
        values: List::from_vec(values),
        links: List::from_vec(links),
    }))
}

/// The three writes of an article.
fn article_set(alloc: Global, number: u64, turn: u64) -> Result<WriteSet, NoMemory>
    ensures { IfOk result (λ w. AreRisingKeys (map (λ x. x.key) w.cells)) }
{
    let mut recorder = Recorder::new(alloc, CellMap::new(alloc));
    recorder.put(CellKey::Row(key(1, number)), article(alloc, number, turn)?)?;
    recorder.put(
        CellKey::Back {
            to: key(0, turn % 10),
            from: key(1, number),
            rel: 0,
        },
        Cell::Back,
    )?;
    recorder.put(CellKey::Counter(1), Cell::Counter(turn.wrapping_add(2)))?;
    let (_, writes) = recorder.finish();
    Ok(writes)
}

/// Does the writes of articles whose numbers are spread below another.
fn write_articles(
    alloc: Global,
    pages: &mut Pages,
    all: u64,
    from: u64,
    times: u64,
) -> Result<(), NoMemory>
    requires { 0 < all }
{
    for turn in 0..times {
        let turn = turn.wrapping_add(from);
        let writes = article_set(alloc, turn.wrapping_mul(7_919) % all, turn)?;
        let (ready, _) = pages.prepare(&writes, &mut Work::new())?;
        pages.install(ready);
    }
    Ok(())
}

/// Makes the writes of articles alone, for their own time.
fn make_articles(alloc: Global, all: u64, times: u64) -> Result<usize, NoMemory>
    requires { 0 < all }
{
    let mut count = 0_usize;
    for turn in 0..times {
        let writes = article_set(alloc, turn.wrapping_mul(7_919) % all, turn)?;
        count = count.wrapping_add(writes.cells.as_slice().len());
    }
    Ok(count)
}

/// Looks at rows past one, as a page of so many does.
fn read_page(alloc: Global, pages: &Pages, from: u64, size: u64) -> Result<u64, NoMemory> {
    let mut recorder = Recorder::new(alloc, pages.snapshot()?);
    let mut work = Work::new();
    let mut low = Edge::Open(Id::of_number(from));
    for _ in 0..size.wrapping_add(1) {
        let span = rows_from(1, &low);
        let Some((CellKey::Row(found), _)) = recorder.first_in(&span, &mut work)? else {
            return Ok(work.done);
        };
        low = past(found);
    }
    Ok(work.done)
}

/// Reads pages from rows that are spread below a number.
fn read_pages(alloc: Global, pages: &Pages, all: u64, times: u64) -> Result<u64, NoMemory>
    requires { 0 < all }
{
    let mut looks = 0_u64;
    for turn in 0..times {
        looks = looks.wrapping_add(read_page(alloc, pages, turn.wrapping_mul(7_919) % all, 20)?);
    }
    Ok(looks)
}

/// Takes snapshots.
fn take_snapshots(pages: &Pages, times: u64) -> Result<(), NoMemory> {
    for _ in 0..times {
        let _ = pages.snapshot()?;
    }
    Ok(())
}

/// The times of pages with about so many cells.
fn measure_size(rt: &(impl Print + Clock), alloc: Global, all: u64) -> io::Result<()>
    requires { 0 < all }
{
    let times = 20_000;
    let mut pages = Pages::new(alloc);
    let Ok(()) = write_articles(alloc, &mut pages, all, 0, all) else {
        return println!(rt; "no memory");
    };
    let start = Instant::now(rt)?;
    let written = write_articles(alloc, &mut pages, all, all, times);
    let writes = start.elapsed(rt)?;
    let start = Instant::now(rt)?;
    let made = make_articles(alloc, all, times);
    let making = start.elapsed(rt)?;
    let start = Instant::now(rt)?;
    let read = read_pages(alloc, &pages, all, times);
    let reads = start.elapsed(rt)?;
    let start = Instant::now(rt)?;
    let taken = take_snapshots(&pages, times);
    let snapshots = start.elapsed(rt)?;
    if written.is_err() || made.is_err() || read.is_err() || taken.is_err() {
        return println!(rt; "no memory");
    }
    println!(rt;
        "{all} articles, {times} times, in us: write {}, of which the write set {}; page of 20 {}; snapshot {}",
        writes.as_micros(),
        making.as_micros(),
        reads.as_micros(),
        snapshots.as_micros()
    )
}

/// The times of pages with 500 articles and with 50,000, each of which has two cells.
pub fn measure(rt: &(impl Print + Clock), alloc: Global) -> io::Result<()> {
    for all in [500, 50_000] {
        measure_size(rt, alloc, all)?;
    }
    Ok(())
}

/// Writes 150 articles and takes so many snapshots, for the memory that these ask for.
pub fn hold(rt: &impl Print, alloc: Global, times: u64) -> io::Result<()> {
    let mut pages = Pages::new(alloc);
    let written = write_articles(alloc, &mut pages, 150, 0, 150);
    if written.is_err() || take_snapshots(&pages, times).is_err() {
        return println!(rt; "no memory");
    }
    println!(rt; "150 articles written")
}
