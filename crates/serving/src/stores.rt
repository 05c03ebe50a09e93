ghost use Rattle.std.specs.Prelude.{◌≡◌, ◌≤◌, ◌<◌, All, IfOk, IsSome, OnErr, length};
ghost use Rattle.task_forms.specs.declared.tasks.Task.{Task as StoreTask};
ghost use Rattle.session_engine.specs.Plans.{plans_of};
ghost use Rattle.connection_workers.specs.declared.workers.TheConstants.{QUOTA_LIMIT};
ghost use Rattle.serve_lines.specs.declared.words.TheConstants.{WORKER_LIMIT};
ghost use Rattle.serving.specs.Serving.{ServesStore};
ghost use Rattle.serving.specs.Working.{HavePasses};

use crate::counts::served_by;
use crate::passes::give_passes;
use crate::workers::Workers;
use commit_core::{Core, Service};
use connection_workers::WorkerEnd;
use history_lock::Pass;
use ident_rules::NoMemory;
use outer_ends::{Gate, Listener};
use serve_lines::Served;
use session_engine::Limits;
use std::alloc::Global;
use std::sync::Wait;
use std::thread::Threads;
use task_forms::{Entry, Planner};
use trial_subject::Subject;
use worker_stations::{Station, serve_all};

// Runs one worker on each station, joins their passes, closes the store, and counts.
fn serve_given<
    S: Subject<Kind: Send> + Drop + Send + Sync,
    P: Planner + Sync,
    L: Listener<Src: Send, Snk: Send> + Send,
    G: Gate + Drop + Send,
    R: Threads + Wait + Sync,
>(
    rt: &R,
    alloc: Global,
    limits: Limits,
    planner: &P,
    service: Service<S>,
    stations: &mut [Station<L, G, Pass<Core<S>, Entry, S::Kind>, WorkerEnd>],
    quota: u64,
) -> Served
    requires some { 0 < length stations.old }
    requires few { length stations.old ≤ WORKER_LIMIT }
    requires quota { quota ≤ QUOTA_LIMIT }
    requires fit { (t : StoreTask) → P.fit planner.now t → (S.meaning (S.kind service.subject)).fit t }
    requires gates { All (λ s. IsSome s.gate) stations.old }
    requires start { service.lock.start ≡ record { first = 0; passes = length stations.old } }
    requires passes { HavePasses service.lock.name service.lock.start (S.kind service.subject) stations.old }
    ensures { ServesStore (S.meaning (S.kind service.subject)) (plans_of (P.planned planner.now)) L.told quota stations.old stations.new result }
{
    let workers = Workers::new(alloc, limits, &service, planner, quota);
    let Some(whole) = serve_all(rt, &workers, stations) else {
        unreachable!()
    };
    let (_core, count) = service.close(whole);
    served_by(stations, count)
}

/// Serves a new, empty store by one worker at each station, which each serve `quota` connections at most by `serve_worker`, each in a thread
/// of its own where one can be made. The i-th worker, from 0, makes entries of the number i. There is one legal history for all of them.
/// Its one error is want of memory, before a worker runs. It may wait.
pub fn serve_store<
    S: Subject<Kind: Send> + Drop + Send + Sync,
    P: Planner + Sync,
    L: Listener<Src: Send, Snk: Send> + Send,
    G: Gate + Drop + Send,
    R: Threads + Wait + Sync,
>(
    rt: &R,
    alloc: Global,
    limits: Limits,
    subject: S,
    planner: &P,
    stations: &mut [Station<L, G, Pass<Core<S>, Entry, S::Kind>, WorkerEnd>],
    quota: u64,
) -> Result<Served, NoMemory>
    requires some { 0 < length stations.old }
    requires few { length stations.old ≤ WORKER_LIMIT }
    requires quota { quota ≤ QUOTA_LIMIT }
    requires fit { (t : StoreTask) → P.fit planner.now t → (S.meaning (S.kind subject)).fit t }
    requires gates { All (λ s. IsSome s.gate) stations.old }
    ensures serves { IfOk result (λ served. ServesStore (S.meaning (S.kind subject)) (plans_of (P.planned planner.now)) L.told quota stations.old stations.new served) }
    ensures unserved { OnErr result (stations.new ≡ stations.old) }
{
    let (service, passes) = Service::new(alloc, subject, 0, stations.len() as u32)?;
    give_passes(passes, stations);
    Ok(serve_given(rt, alloc, limits, planner, service, stations, quota))
}
