ghost use Rattle.std.specs.Prelude.{◌≡◌, ◌<◌, ◌≤◌, ◌^◌, IfOk, [], None};
ghost use Rattle.history_model.specs.Standing.{LogSays};
ghost use Rattle.commit_log.specs.Logs.{no_entries};
ghost use Rattle.commit_core.specs.Tallies.{Counts};

use commit_log::CommitLog;
use history_model::Check;
use ident_rules::NoMemory;
use outer_ends::Work;
use std::alloc::Global;
use std::marker::Model;
use world_cells::{KeySet, ReadSet};

/// How many entries a history may have, so that each has a number.
pub const ENTRY_LIMIT: u64 = 1 << 62;

/// The count of a history's entries and the log of those that wrote. Contracts see both.
#[derive(Drop)]
pub struct Tally {
    count: u64,
    log: CommitLog,
}

impl Model for Tally {
    ghost use Rattle.std.specs.Prelude.{◌≤◌, ◌^◌};
    ghost use Rattle.commit_core.specs.Tallies.{TallyState, IsTallied};

    ghost Value = { TallyState };

    ghost view = { λ t. record { count = t.count; log = t.log.log } };

    ghost invariant = { λ t. (t.count ≤ 2 ^ 62) × IsTallied t.count t.log.log };
}

impl Tally {
    /// Of no entries, after this number. `window` is how many writing entries the log remembers. Its one error is want of memory.
    pub fn new(alloc: Global, first: u64, window: usize) -> Result<Tally, NoMemory>
        requires first { first ≤ 2 ^ 62 }
        requires window { 0 < window }
        ensures { IfOk result (λ t. t ≡ record { count = first; log = no_entries window }) }
    {
        let log = CommitLog::new(alloc, window)?;
        Ok(Tally { count: first, log })
    }

    /// The number of the last entry, at most `ENTRY_LIMIT`.
    pub fn count(&self) -> u64
        ensures count { result ≡ self.now.count }
        ensures most { result ≤ 2 ^ 62 }
    {
        self.count
    }

    /// What the log says of the reads of a trial on the entries up to a number. Takes no memory.
    pub fn first_conflict(&self, reads: &ReadSet, since: u64, work: &mut Work) -> Check
        ensures { LogSays self.now.log reads.now since result }
    {
        self.log.first_conflict(reads, since, work)
    }

    /// Counts one more entry, which wrote at these keys, and logs it where there are any. Takes no memory.
    pub fn add(&mut self, keys: KeySet)
        requires room { self.old.count < 2 ^ 62 }
        ensures { Counts self.old keys.keys self.new }
    {
        self.count += 1;
        if !keys.keys.as_slice().is_empty() {
            self.log.append(self.count, keys);
        }
    }
}
