//! The cases of jsonapid: each is run over ends in memory by the same `command` that the program calls, and what comes of it is
//! printed. The stored run compares the print with `stdout`.
//!
//! **To add a case**, write an object into a list of data/ (a new file of data/ is named in `args`), with
//!
//! - `name`: what it shows;
//! - `words`: the words behind the program's name;
//! - `stdin`: the input, each character one byte; or a list of parts, each a text and how often it stands there;
//! - `files`: texts by their names, each written as `stdin` is; none where it is left out;
//! - `piece`: the most bytes that one read of the input gives; 65,536 where it is left out;
//! - `failing_reads`, `failing_writes`, `failing_opens`, `failing_file_reads`: the numbers, from 1, of the calls that fail; none where
//!   they are left out;
//!
//! and what must come of it into `stdout`, at the case's place, worked from the specification and never copied from a run: a line
//! `# NAME: status STATUS`, the output, and a line feed. A carriage return is written `\r`, a backslash `\\`, another byte that is no
//! line feed and not printable `\x` and two digits, and a byte that stands 100 times or more in a row once, and `\{COUNT}` behind it.
#![tactic(auto)]

mod cases;
mod prints;
mod runs;

use cases::Case;
use runs::run;
use std::alloc::Global;
use std::env::{self, Env};
use std::fs::{self, Files};
use std::io::{self, BufWriter, Write};

/// Runs the cases of a file of data/, and prints what came of each.
fn run_file<W: Write + Drop>(
    rt: &(impl Files + AllocGlobal),
    alloc: Global,
    path: &str,
    out: &mut W,
) -> Result<(), anyhow::Error> {
    let text = fs::read_to_string(rt, path)?;
    let cases: Vec<Case> = serde_json::from_str(alloc, text.as_str())?;
    for case in cases.iter() {
        let Ok(ran) = run(alloc, case) else {
            return Err(anyhow::Error::msg("out of memory"));
        };
        prints::print(out, case.name.as_str(), ran.status, ran.sink.written())?;
    }
    Ok(())
}

fn main(rt: HostRuntime) -> Result<(), anyhow::Error> {
    let alloc = rt.alloc();
    let mut out = BufWriter::new(alloc, io::writer(&rt))?;
    for path in env::args(&rt)?.skip(1) {
        run_file(&rt, alloc, path.as_str(), &mut out)?;
    }
    out.flush()?;
    Ok(())
}
