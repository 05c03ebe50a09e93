//! A run of a case.
ghost use Rattle.std.specs.Prelude.{◌<◌};

use crate::cases::{Case, bytes_of};
use commands::command;
use ident_rules::{NoMemory, Text};
use outer_ends::{MemoryOpener, MemorySink, MemorySource};
use std::alloc::Global;

/// The most bytes of one read where a case names none.
const WHOLE: usize = 65_536;

/// What came of a case.
#[derive(Drop)]
pub struct Ran {
    /// The exit status.
    pub status: u8,
    /// The output.
    pub sink: MemorySink,
}

/// The words of a case.
fn words_of(alloc: Global, case: &Case) -> Result<Vec<Text>, NoMemory> {
    let mut words = Vec::new(alloc);
    for word in case.words.iter() {
        words.push(Text::from_str(alloc, word.as_str())?)?;
    }
    Ok(words)
}

/// The files of a case.
fn opener_of(alloc: Global, case: &Case) -> Result<MemoryOpener, NoMemory> {
    let mut files = Vec::new(alloc);
    for (name, written) in case.files.iter() {
        let name = Text::from_str(alloc, name.as_str())?.into_string();
        let failing = Vec::from_slice(alloc, &case.failing_file_reads)?;
        files.push((name, bytes_of(alloc, written)?, failing))?;
    }
    let failing = Vec::from_slice(alloc, &case.failing_opens)?;
    Ok(MemoryOpener::new(alloc, files, failing))
}

/// The greatest piece of a read: that of the case where it is more than 0, else the whole.
fn piece_of(case: &Case) -> usize
    ensures { 0 < result }
{
    match case.piece {
        Some(piece) => { if piece > 0 { piece } else { WHOLE } }
        None => WHOLE,
    }
}

/// Runs the command of a case over ends in memory.
pub fn run(alloc: Global, case: &Case) -> Result<Ran, NoMemory> {
    let words = words_of(alloc, case)?;
    let mut opener = opener_of(alloc, case)?;
    let mut source = MemorySource::new(
        bytes_of(alloc, &case.stdin)?,
        piece_of(case),
        Vec::from_slice(alloc, &case.failing_reads)?,
    );
    let mut sink = MemorySink::new(alloc, Vec::from_slice(alloc, &case.failing_writes)?);
    let status = command(alloc, words.as_slice(), &mut opener, &mut source, &mut sink);
    Ok(Ran { status, sink })
}
