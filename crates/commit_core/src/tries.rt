ghost use Rattle.std.specs.Prelude.{◌≡◌, ◌≤◌, IfOk, map};
ghost use Rattle.world_cells.specs.Reads.{AreRisingKeys};
ghost use Rattle.history_model.specs.Trials.{IsTried, StaysInReach};
ghost use Rattle.ordered_pages.specs.Tree.{map_of};

use crate::{Attempt, Snapshot};
use http_messages::Reply;
use ident_rules::NoMemory;
use outer_ends::Work;
use std::alloc::Global;
use std::marker::Model;
use trial_subject::Subject;
use view_reads::Recorder;
use world_cells::{ReadSet, WriteSet};

/// Writes whose keys rise. Contracts see the writes.
#[derive(Drop)]
pub struct RisingWrites {
    set: WriteSet,
}

impl Model for RisingWrites {
    ghost use Rattle.std.specs.Prelude.{List as Listed, map};
    ghost use Rattle.world_cells.specs.declared.sets.Written.{Written};
    ghost use Rattle.world_cells.specs.Reads.{AreRisingKeys};

    ghost Value = { Listed Written };

    ghost view = { λ w. w.set.cells };

    ghost invariant = { λ w. AreRisingKeys (map (λ x. x.key) w.set.cells) };
}

impl RisingWrites {
    /// These writes.
    pub fn new(set: WriteSet) -> RisingWrites
        requires { AreRisingKeys (map (λ w. w.key) set.cells) }
        ensures { result ≡ set.cells }
    {
        RisingWrites { set }
    }

    /// The writes.
    pub fn set(&self) -> &WriteSet
        ensures is { result.now.cells ≡ self.now }
        ensures rising { AreRisingKeys (map (λ w. w.key) result.now.cells) }
    {
        &self.set
    }
}

/// What a try of a task on a snapshot gave.
#[derive(Drop)]
pub struct Trial {
    /// The number of the last entry that the snapshot has seen.
    pub at: u64,
    /// What was looked at.
    pub reads: ReadSet,
    /// What is to be written.
    pub writes: RisingWrites,
    /// The reply.
    pub reply: Reply,
}

/// Tries a task on a snapshot: its reply and its writes, right in every valid world that agrees with the snapshot on what was looked at.
/// Takes no lock. Its one error is want of memory.
pub fn try_task<S: Subject>(
    alloc: Global,
    subject: &S,
    snapshot: &Snapshot,
    attempt: &Attempt,
    work: &mut Work,
) -> Result<Trial, NoMemory>
    requires fit { (S.meaning (S.kind subject.now)).fit attempt.now.task }
    requires last { attempt.now.last ≤ snapshot.now.at }
    ensures at { IfOk result (λ t. t.at ≡ snapshot.now.at) }
    ensures tried { IfOk result (λ t. IsTried (S.meaning (S.kind subject.now)) (map_of snapshot.now.pages) attempt.now.task t.reads t.writes t.reply) }
    ensures reach { IfOk result (λ t. StaysInReach (S.meaning (S.kind subject.now)) (map_of snapshot.now.pages) attempt.now.task t.reads) }
{
    let mut recorder = Recorder::new(alloc, &snapshot.pages);
    let reply = subject.run_on(alloc, &attempt.task, &mut recorder, work)?;
    let (reads, writes) = recorder.finish();
    Ok(Trial {
        at: snapshot.at,
        reads,
        writes: RisingWrites::new(writes),
        reply,
    })
}
