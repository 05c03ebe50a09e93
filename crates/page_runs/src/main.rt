//! Pages of cells against the plain map, on write sets that are drawn, with snapshots kept across.
//!
//! With no words it prints how many keys the write sets change, and a digest of what is there at the end, which pages and
//! the plain map have alike. With the word `measure` it prints times of pages with 1,000 and with 100,000 cells. With `cells` it
//! writes 300 cells, and with `snapshots` it takes 20,000 snapshots of them too, so that their requests for memory can be told apart.
#![tactic(auto)]

mod comparing;
mod digests;
mod draws;
mod measuring;

use comparing::{Compared, compare};
use ident_rules::NoMemory;
use measuring::{hold, measure};
use std::rt::Clock;
use std::{env, io};

/// What came of a run, in a line.
fn print_run(rt: &impl Print, places: u64, run: Result<Compared, NoMemory>) -> io::Result<()> {
    match run {
        Ok(run) => println!(rt;
            "{places} places: {} keys in {} write sets, {} changed, {} cells, {} differences, digest {}",
            run.keys, run.sets, run.changed, run.cells, run.differences, run.digest
        ),
        Err(NoMemory) => println!(rt; "{places} places: no memory"),
    }
}

fn main(rt: HostRuntime) -> io::Result<()> {
    let alloc = rt.alloc();
    let mut words = env::args(&rt)?;
    if let Some(word) = words.nth(1) {
        return match word.as_str() {
            "cells" => hold(&rt, alloc, 0),
            "snapshots" => hold(&rt, alloc, 20_000),
            _ => measure(&rt, alloc),
        };
    }
    for (places, sets) in [(3, 200), (300, 200), (20_000, 400)] {
        print_run(&rt, places, compare(alloc, places, sets))?;
    }
    Ok(())
}
