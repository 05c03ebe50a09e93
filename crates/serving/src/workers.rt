ghost use Rattle.std.specs.Prelude.{◌≡◌};
ghost use Rattle.serving.specs.Working.{WorkersState};

use commit_core::{Core, Service};
use connection_workers::{WorkerEnd, serve_worker};
use history_lock::Pass;
use outer_ends::{Gate, Listener};
use session_engine::Limits;
use shared_desk::SharedDesk;
use std::alloc::Global;
use std::marker::{Model, PhantomData};
use std::sync::{Mutex, Wait};
use task_forms::{Entry, Planner};
use trial_subject::{Answers, Subject};
use worker_stations::{Joining, Station};

/// The workers of one store, all with one planner and one quota of connections. Contracts see the store, the planner and the quota.
#[derive(Drop)]
pub struct Workers<'a, S: Answers + Drop, P, L, G> {
    alloc: Global,
    limits: Limits,
    service: &'a Service<S>,
    planner: &'a P,
    quota: u64,
    // As a lock is, it may be shared where listeners and gates may be sent.
    of: PhantomData<Mutex<(L, G)>>,
}

impl<'a, S: Answers + Drop, P, L, G> Model for Workers<'a, S, P, L, G> {
    ghost use Rattle.serving.specs.Working.{WorkersState};

    ghost Value = { WorkersState S P };

    ghost view = { λ w. record { service = w.service.now; planner = w.planner.now; quota = w.quota } };
}

impl<'a, S: Answers + Drop, P, L, G> Workers<'a, S, P, L, G> {
    /// Workers that each serve `quota` connections at most.
    pub fn new(
        alloc: Global,
        limits: Limits,
        service: &'a Service<S>,
        planner: &'a P,
        quota: u64,
    ) -> Workers<'a, S, P, L, G>
        ensures { result ≡ record { service = service.now; planner = planner.now; quota = quota } }
    {
        Workers {
            alloc,
            limits,
            service,
            planner,
            quota,
            of: PhantomData,
        }
    }
}

impl<'a, S: Subject + Drop, P: Planner, L: Listener, G: Gate + Drop> Joining
    for Workers<'a, S, P, L, G> {
    ghost use Rattle.serving.specs.Working.{HasWorked, IsOfStore, IsReady, IsWithin};
    ghost use Rattle.serving.specs.WithinLaws.{within_same, within_then};

    type Lsn = L;

    type Gt = G;

    type Pass = Pass<Core<S>, Entry, S::Kind>;

    type Entry = Entry;

    type End = WorkerEnd;

    ghost ready = { IsReady S.kind S.meaning P.fit };

    ghost ran = { λ w. HasWorked (P.planned w.planner) L.told w.quota };

    ghost own = { λ w. IsOfStore S.kind w.service };

    ghost within = { IsWithin };

    ghost mine = { λ p. p.view.mine };

    /// Serves the listener of the station by `serve_worker`, over a desk of the station's pass and gate. It may wait.
    fn run_one<R: Wait>(
        &self,
        rt: &R,
        station: &mut Station<L, G, Pass<Core<S>, Entry, S::Kind>, WorkerEnd>,
    ) {
        let Some(pass) = station.pass.take() else {
            unreachable!()
        };
        let Some(gate) = station.gate.take() else {
            unreachable!()
        };
        let mut desk = SharedDesk::new(rt, self.alloc, self.service, pass, gate);
        let end = serve_worker(
            self.alloc,
            self.limits,
            self.planner,
            &mut station.listener,
            &mut desk,
            self.quota,
        );
        let (pass, gate) = desk.into_pass();
        station.gate = Some(gate);
        station.pass = Some(pass);
        station.end = Some(end);
    }

    fn join(
        &self,
        one: Pass<Core<S>, Entry, S::Kind>,
        other: Pass<Core<S>, Entry, S::Kind>,
    ) -> Pass<Core<S>, Entry, S::Kind> {
        self.service.join(one, other)
    }

    ghost same = { within_same };

    ghost then = { within_then };
}
