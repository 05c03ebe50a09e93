ghost use Rattle.std.specs.Prelude.{◌≡◌, [], Some};
ghost use Rattle.commit_core.specs.Serving.{IsPassOf};
ghost use Rattle.shared_desk.specs.Passes.{StandsOf};

use crate::Owner;
use crate::gates::CountedGate;
use crate::tries::answered;
use commit_core::{Core, Service};
use history_lock::Pass;
use http_messages::Reply;
use outer_ends::Gate;
use std::alloc::Global;
use std::marker::Model;
use std::sync::Wait;
use task_forms::{Desk, DeskEnd, Entry, Task};
use trial_subject::{Answers, Subject};

/// A desk of one pass of a store that connections share. Contracts see the store's kind, the lock's name and the pass, which is away only
/// while the desk answers.
#[derive(Drop)]
pub struct SharedDesk<'a, S: Answers + Drop, G, R> {
    rt: &'a R,
    alloc: Global,
    service: &'a Service<S>,
    gate: CountedGate<G>,
    pass: Option<Pass<Core<S>, Entry, S::Kind>>,
}

impl<'a, S: Answers + Drop, G, R> Model for SharedDesk<'a, S, G, R> {
    ghost use Rattle.std.specs.Prelude.{IfSome, IsSome};
    ghost use Rattle.commit_core.specs.Serving.{IsPassOf};
    ghost use Rattle.shared_desk.specs.Passes.{DeskState};

    ghost Value = { DeskState S.Kind };

    ghost view = { λ d. record { kind = S.kind d.service.now.subject; lock = d.service.now.lock.name; pass = d.pass } };

    ghost invariant = { λ d. IsSome d.pass × IfSome d.pass (IsPassOf S.kind d.service.now) };
}

impl<'a, S: Answers + Drop, G: Gate, R> SharedDesk<'a, S, G, R> {
    /// A desk with this pass of the store. It passes the gate after each try of a task and before its commit, with the number of the try,
    /// from 1.
    pub fn new(
        rt: &'a R,
        alloc: Global,
        service: &'a Service<S>,
        pass: Pass<Core<S>, Entry, S::Kind>,
        gate: G,
    ) -> SharedDesk<'a, S, G, R>
        requires own { IsPassOf S.kind service.now pass }
        ensures is { result ≡ record { kind = S.kind service.now.subject; lock = service.now.lock.name; pass = Some pass } }
        ensures begins { pass.view.seen ≡ [] → pass.view.mine ≡ [] → StandsOf (S.meaning (S.kind service.now.subject)) pass pass.view.first (S.meaning (S.kind service.now.subject)).empty [] [] }
    {
        SharedDesk {
            rt,
            alloc,
            service,
            gate: CountedGate { gate, passed: 0 },
            pass: Some(pass),
        }
    }

    /// Its pass and its gate.
    pub fn into_pass(self) -> (Pass<Core<S>, Entry, S::Kind>, G)
        ensures pass { Some result.0 ≡ self.entry.pass }
        ensures lock { result.0.lock ≡ self.entry.lock }
        ensures kind { result.0.view.kind ≡ Some self.entry.kind }
    {
        let SharedDesk { pass, gate, .. } = self;
        match pass {
            Some(pass) => (pass, gate.gate),
            None => unreachable!(),
        }
    }
}

impl<'a, S: Subject + Drop, G: Gate, R: Wait> Desk for SharedDesk<'a, S, G, R> {
    ghost use Rattle.shared_desk.specs.Passes.{StandsFor, is_own, owner_of};
    ghost use Rattle.shared_desk.specs.PassLaws.{legal_of, own_of};

    type Fixed = Owner<S::Kind>;

    ghost fixed = { owner_of };

    ghost meaning = { λ o. S.meaning o.kind };

    ghost is_own = { λ o e. is_own o.numbers e };

    ghost stands = { λ d. StandsFor (S.meaning d.kind) d.pass };

    /// Tries the task with the lock free and commits it, three times at most, and then settles it under the lock. It may wait.
    fn answer(&mut self, task: Task) -> Result<Reply, DeskEnd> {
        let Some(pass) = self.pass.take() else {
            unreachable!()
        };
        let (pass, end) = answered(
            self.rt,
            self.alloc,
            self.service,
            &mut self.gate,
            pass,
            task,
        );
        self.pass = Some(pass);
        end
    }

    ghost legal = { λ d. legal_of (S.meaning d.kind) d.pass };

    ghost own = { λ d. own_of (S.meaning d.kind) d.pass };
}
