//! Runs of the history lock: passes with entries of their own, joined in both orders and closed, and threads that enter by turns.
//!
//! With no words it prints how many entries there are at the end of each run, which no schedule changes. With two words, of how many
//! passes and how many entries each is to make, it prints the time of such a run too.
#![tactic(auto)]

mod runs;
mod tallies;
mod turns;

use ident_rules::NoMemory;
use runs::{Order, count_of_run, count_of_threads};
use std::alloc::Global;
use std::rt::Clock;
use std::sync::Wait;
use std::thread::Threads;
use std::time::Instant;
use std::{env, io};

/// What came of a run, in a line.
fn print_run(rt: &impl Print, name: &str, count: Result<u64, NoMemory>) -> io::Result<()> {
    match count {
        Ok(count) => println!(rt; "{name}: {count} entries"),
        Err(NoMemory) => println!(rt; "{name}: no memory"),
    }
}

/// The runs of the stored print.
fn print_runs(rt: &(impl Print + Threads + Wait + Sync), alloc: Global) -> io::Result<()> {
    let last_first = Order::LastFirst;
    let last_second = Order::LastSecond;
    print_run(
        rt,
        "one pass that makes none",
        count_of_run(rt, alloc, 1, 0, last_first),
    )?;
    print_run(
        rt,
        "two passes that make three each",
        count_of_run(rt, alloc, 2, 3, last_first),
    )?;
    print_run(
        rt,
        "64 passes, the last one first",
        count_of_run(rt, alloc, 64, 10, last_first),
    )?;
    print_run(
        rt,
        "64 passes, the last one second",
        count_of_run(rt, alloc, 64, 10, last_second),
    )?;
    print_run(rt, "8 threads", count_of_threads(rt, alloc, 8, 100))
}

/// The number of a word, and 0 for another word.
fn number_of(word: &str) -> u32 {
    word.parse::<u32>().unwrap_or(0)
}

/// A run of so many threads, each with so many entries, and its time.
fn print_timed(
    rt: &(impl Print + Threads + Wait + Sync + Clock),
    alloc: Global,
    passes: u32,
    entries: u32,
) -> io::Result<()> {
    if passes == 0 || passes > 64 {
        return println!(rt; "1 to 64 passes");
    }
    let start = Instant::now(rt)?;
    let count = count_of_threads(rt, alloc, passes, u64::from(entries));
    let spent = start.elapsed(rt)?;
    print_run(rt, "threads", count)?;
    println!(rt; "{} microseconds", spent.as_micros())
}

fn main(rt: HostRuntime) -> io::Result<()> {
    let alloc = rt.alloc();
    let mut words = env::args(&rt)?.skip(1);
    match (words.next(), words.next()) {
        (Some(passes), Some(entries)) => {
            print_timed(
                &rt,
                alloc,
                number_of(passes.as_str()),
                number_of(entries.as_str()),
            )
        }
        _ => print_runs(&rt, alloc),
    }
}
