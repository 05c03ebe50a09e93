//! Replies counted by their statuses, and a desk that counts those that it gives.
ghost use Rattle.std.specs.Prelude.{◌≡◌, []};
ghost use Rattle.workload_command.specs.Tallies.{capped, counted, tally_of};

use http_messages::Reply;
use std::marker::Model;
use task_forms::{Desk, DeskEnd, Task};

/// How many replies had each of these statuses. Each number stays at the greatest `u64`.
#[derive(Clone, Copy)]
pub struct Tally {
    /// 200.
    pub ok: u64,
    /// 201.
    pub created: u64,
    /// 204.
    pub empty: u64,
    /// 404.
    pub missing: u64,
}

impl Tally {
    /// That of no reply. Takes no memory.
    pub fn new() -> Tally
        ensures { result ≡ capped (tally_of []) }
    {
        Tally {
            ok: 0,
            created: 0,
            empty: 0,
            missing: 0,
        }
    }

    /// Counts a reply of that status. Takes no memory.
    pub fn add(&mut self, status: u16)
        ensures { self.new ≡ counted self.old status }
    {
        match status {
            200 => self.ok = self.ok.saturating_add(1),
            201 => self.created = self.created.saturating_add(1),
            204 => self.empty = self.empty.saturating_add(1),
            404 => self.missing = self.missing.saturating_add(1),
            _ => (),
        }
    }
}

/// A desk on top of another one, which answers what that answers, and counts its replies by their statuses. It stands for what that desk stands
/// for, where its tally is that of its own entries.
#[derive(Drop)]
pub struct TallyDesk<D: Drop> {
    /// The desk that answers.
    pub desk: D,
    /// The replies so far.
    pub tally: Tally,
}

impl<D: Desk + Drop> TallyDesk<D> {
    /// A desk on top of this one, which has counted nothing. Takes no memory.
    pub fn new(desk: D) -> TallyDesk<D>
        ensures desk { result.desk ≡ desk }
        ensures tally { result.tally ≡ capped (tally_of []) }
    {
        TallyDesk {
            desk,
            tally: Tally::new(),
        }
    }
}

impl<D: Desk + Drop> Desk for TallyDesk<D> {
    ghost use Rattle.std.specs.Prelude.{◌≡◌};
    ghost use Rattle.workload_command.specs.Tallies.{capped, tally_of};

    type Fixed = D::Fixed;

    ghost fixed = { λ d. D.fixed d.desk };

    ghost meaning = { D.meaning };

    ghost is_own = { D.is_own };

    ghost stands = { λ d first w seen mine. D.stands d.desk first w seen mine × (d.tally ≡ capped (tally_of mine)) };

    fn answer(&mut self, task: Task) -> Result<Reply, DeskEnd> {
        let reply = self.desk.answer(task)?;
        self.tally.add(reply.status);
        Ok(reply)
    }

    ghost legal = { λ d first w seen mine stands. D.legal d.desk first w seen mine stands.0 };

    ghost own = { λ d first w seen mine stands. D.own d.desk first w seen mine stands.0 };
}
