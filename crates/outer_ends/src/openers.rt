ghost use Rattle.std.specs.Prelude.{◌≡◌, ◌<◌, IfOk, IsTrue, map, find, string_bytes, Some, None, IsErrAnd, false};
ghost use Rattle.std.specs.Str.{bytes_eq};
ghost use Rattle.std.specs.Option.{option_copied, option_map};
ghost use Rattle.outer_ends.specs.Memory.{source_told, named_bytes, file_state, file_named, opened};
ghost use Rattle.outer_ends.specs.Causes.{one_more};
ghost use Rattle.outer_ends.specs.Opens.{bytes_of, HasMisses, HasFaults, CountsOne, IsFresh, Opens, AddsFaults};

use crate::{MemorySource, OpenEnd, Opener};
use std::alloc::{AllocError, Global};
use std::marker::Model;

/// The most bytes that a source opened in memory gives in one read.
pub const MEMORY_PIECE: usize = 8192;

/// Opens sources over bytes in memory by their names.
#[derive(Drop)]
pub struct MemoryOpener {
    alloc: Global,
    files: Vec<(String, Vec<u8>, Vec<u64>)>,
    failing: Vec<u64>,
    calls: u64,
    misses: u64,
    faults: u64,
}

impl Model for MemoryOpener {
    ghost use Rattle.std.specs.Prelude.{map};
    ghost use Rattle.outer_ends.specs.Memory.{OpenerState, file_state};

    ghost Value = { OpenerState };

    ghost view = { λ o. record {
      files = map file_state o.files.items;
      failing = o.failing.items;
      calls = o.calls;
      misses = o.misses;
      faults = o.faults;
    } };
}

impl MemoryOpener {
    ghost use Rattle.outer_ends.specs.Memory.{OpenerState};

    /// An opener of `files`, each a name, its bytes, and the numbers, from 1, of the reads of its
    /// source that are to fail; of two with one name the first counts. `failing` has the numbers,
    /// from 1, of the calls of `open` that are to fail.
    pub fn new(
        alloc: Global,
        files: Vec<(String, Vec<u8>, Vec<u64>)>,
        failing: Vec<u64>,
    ) -> MemoryOpener
        ensures { result ≡ record {
          files = map file_state files.items;
          failing = failing.items;
          calls = 0;
          misses = 0;
          faults = 0;
        } }
    {
        MemoryOpener {
            alloc,
            files,
            failing,
            calls: 0,
            misses: 0,
            faults: 0,
        }
    }

    /// How often a name was not there; it stays at the greatest `u64`.
    pub fn misses(&self) -> u64
        ensures { result ≡ self.now.misses }
    {
        self.misses
    }

    /// How often it, or a source that was given back, has failed; it stays at the greatest `u64`.
    pub fn faults(&self) -> u64
        ensures { result ≡ self.now.faults }
    {
        self.faults
    }
}

/// The first file of that name.
fn file_of<'a>(
    files: &'a [(String, Vec<u8>, Vec<u64>)],
    name: &str,
) -> Option<&'a (String, Vec<u8>, Vec<u64>)>
    ensures { option_copied result ≡ find (λ f. bytes_eq (string_bytes f.0) name.now) files.now }
{
    files.iter().find(|file| file.0.as_str() == name)
}

/// A source over a copy of the file's bytes.
fn source_of(alloc: Global, file: &(String, Vec<u8>, Vec<u64>)) -> Result<MemorySource, AllocError>
    ensures { IfOk result (λ source. source ≡ opened (file_state file.now)) }
{
    let bytes = Vec::from_slice(alloc, &file.1)?;
    let failing = Vec::from_slice(alloc, &file.2)?;
    Ok(MemorySource::new(bytes, MEMORY_PIECE, failing))
}

impl Opener for MemoryOpener {
    ghost use Rattle.outer_ends.specs.Memory.{opener_told, is_next_failing, next_call};
    ghost use Rattle.outer_ends.specs.declared.traits.OpenEnd.TheVariants as OpenEnd;

    type Src = MemorySource;

    ghost told = { opener_told };

    /// Fails in the calls that are to fail and where there is no memory, and else opens the first
    /// file of that name, to give at most 8,192 bytes in one read.
    fn open(&mut self, name: &str) -> Result<MemorySource, OpenEnd>
        ensures misses { HasMisses (opener_told self.old) (opener_told self.new) result }
        ensures faults { HasFaults (opener_told self.old) (opener_told self.new) result }
        ensures one { CountsOne (opener_told self.old) (opener_told self.new) result }
        ensures fresh { IfOk result (λ source. IsFresh (source_told source)) }
        ensures found { Opens source_told (bytes_of name.now (map named_bytes self.old.files)) result }
        ensures files { self.new.files ≡ self.old.files }
        ensures fails { IsTrue (is_next_failing self.old.failing self.old.calls) → IsErrAnd result (λ end. end ≡ OpenEnd.Failed) }
        ensures missing { file_named name.now self.old.files ≡ None → is_next_failing self.old.failing self.old.calls ≡ false → IsErrAnd result (λ end. end ≡ OpenEnd.Missing) }
        ensures source { IfOk result (λ source. option_map opened (file_named name.now self.old.files) ≡ Some source) }
        ensures calls { self.new.calls ≡ next_call self.old.calls }
        ensures script { self.new.failing ≡ self.old.failing }
    {
        self.calls = self.calls.saturating_add(1);
        if self.failing.contains(&self.calls) {
            self.faults = self.faults.saturating_add(1);
            return Err(OpenEnd::Failed);
        }
        match file_of(&self.files, name) {
            None => {
                self.misses = self.misses.saturating_add(1);
                Err(OpenEnd::Missing)
            }
            Some(file) => match source_of(self.alloc, file) {
                Ok(source) => Ok(source),
                Err(_) => {
                    self.faults = self.faults.saturating_add(1);
                    Err(OpenEnd::Failed)
                }
            },
        }
    }

    fn done(&mut self, source: MemorySource)
        ensures faults { AddsFaults (source_told source) (opener_told self.old) (opener_told self.new) }
        ensures one { 0 < source.faults → self.new.faults ≡ one_more self.old.faults }
        ensures others { self.new ≡ record self.old { faults = self.new.faults } }
    {
        if source.faults() > 0 {
            self.faults = self.faults.saturating_add(1);
        }
    }
}
