//! Connections served over a desk whose history begins after any number.
ghost use Rattle.std.specs.Prelude.{◌≡◌, ◌≤◌, ◌^◌, ◌∷◌, [], IfSome};
ghost use Rattle.commit_core.specs.Serving.{IsPassOf};
ghost use Rattle.task_forms.specs.declared.tasks.Task.{Task as StoreTask};

use crate::Meddler;
use commit_core::{Core, Service};
use connection_workers::{WorkerEnd, serve_worker};
use history_lock::Pass;
use history_model::LOG_WINDOW;
use ident_rules::NoMemory;
use local_desk::LocalDesk;
use ordered_pages::Pages;
use outer_ends::{MemoryListener, OpenGate};
use session_engine::Limits;
use shared_desk::SharedDesk;
use std::alloc::Global;
use std::sync::Wait;
use task_forms::{Entry, Planner};
use trial_subject::Subject;

/// What two passes did where one of them was served at the gate of the other.
#[derive(Drop)]
pub struct Meddled {
    /// What the worker came to.
    pub end: WorkerEnd,
    /// How often its gate was passed.
    pub passed: u64,
    /// The listener that was served at the gate.
    pub others: MemoryListener,
}

/// The one pass, where there is one.
fn one_of<S: Subject + Drop>(
    passes: Vec<Pass<Core<S>, Entry, S::Kind>>,
) -> Option<Pass<Core<S>, Entry, S::Kind>>
    ensures { IfSome result (λ p. passes.items ≡ p ∷ []) }
{
    let mut passes = passes;
    let one = passes.pop()?;
    if passes.is_empty() { Some(one) } else { None }
}

/// The two passes, where there are two.
fn two_of<S: Subject + Drop>(
    passes: Vec<Pass<Core<S>, Entry, S::Kind>>,
) -> Option<(Pass<Core<S>, Entry, S::Kind>, Pass<Core<S>, Entry, S::Kind>)>
    ensures { IfSome result (λ r. passes.items ≡ r.0 ∷ r.1 ∷ []) }
{
    let mut passes = passes;
    let other = passes.pop()?;
    let one = passes.pop()?;
    if passes.is_empty() {
        Some((one, other))
    } else {
        None
    }
}

/// Serves the next connection of a listener over a core of its own, whose history begins after the number `first`.
pub fn serve_alone<S: Subject + Drop, P: Planner>(
    alloc: Global,
    subject: S,
    planner: &P,
    first: u64,
    listener: &mut MemoryListener,
) -> Result<WorkerEnd, NoMemory>
    requires first { first ≤ 2 ^ 62 }
    requires fit { (t : StoreTask) → P.fit planner.now t → (S.meaning (S.kind subject)).fit t }
{
    let core = Core::new(alloc, subject, Pages::new(alloc), first, LOG_WINDOW)?;
    let mut desk = LocalDesk::over(alloc, core);
    Ok(serve_worker(alloc, Limits::standard(), planner, listener, &mut desk, 1))
}

/// Serves the next connection of a listener over a desk of this pass.
fn serve_over<S: Subject + Drop, P: Planner, R: Wait>(
    rt: &R,
    alloc: Global,
    service: &Service<S>,
    planner: &P,
    listener: &mut MemoryListener,
    pass: Pass<Core<S>, Entry, S::Kind>,
) -> WorkerEnd
    requires own { IsPassOf S.kind service.now pass }
    requires fit { (t : StoreTask) → P.fit planner.now t → (S.meaning (S.kind service.now.subject)).fit t }
{
    let mut desk = SharedDesk::new(rt, alloc, service, pass, OpenGate);
    let limits = Limits::standard();
    serve_worker(alloc, limits, planner, listener, &mut desk, 1)
}

/// Serves the next connection of a listener over the one pass of a store, whose history begins after the number `first`. None where there is
/// no pass.
pub fn serve_shared<S: Subject + Drop, P: Planner, R: Wait>(
    rt: &R,
    alloc: Global,
    subject: S,
    planner: &P,
    first: u64,
    listener: &mut MemoryListener,
) -> Result<Option<WorkerEnd>, NoMemory>
    requires first { first ≤ 2 ^ 62 }
    requires fit { (t : StoreTask) → P.fit planner.now t → (S.meaning (S.kind subject)).fit t }
{
    let (service, passes) = Service::new(alloc, subject, first, 1)?;
    let Some(pass) = one_of::<S>(passes) else {
        return Ok(None);
    };
    Ok(Some(serve_over(rt, alloc, &service, planner, listener, pass)))
}

/// Serves the next connection of a listener over a desk of one pass, at whose gate the other pass serves the next one of `others`.
fn meddle<'x, S: Subject + Drop, P: Planner, R: Wait>(
    rt: &'x R,
    alloc: Global,
    service: &'x Service<S>,
    planner: &'x P,
    listener: &mut MemoryListener,
    others: MemoryListener,
    one: Pass<Core<S>, Entry, S::Kind>,
    other: Pass<Core<S>, Entry, S::Kind>,
) -> Meddled
    requires one { IsPassOf S.kind service.now one }
    requires other { IsPassOf S.kind service.now other }
    requires fit { (t : StoreTask) → P.fit planner.now t → (S.meaning (S.kind service.now.subject)).fit t }
{
    let desk = SharedDesk::new(rt, alloc, service, other, OpenGate);
    let gate = Meddler::new(alloc, planner, desk, others);
    let mut desk = SharedDesk::new(rt, alloc, service, one, gate);
    let limits = Limits::standard();
    let end = serve_worker(alloc, limits, planner, listener, &mut desk, 1);
    let (_pass, gate) = desk.into_pass();
    let passed = gate.last();
    let others = gate.into_listener();
    Meddled {
        end,
        passed,
        others,
    }
}

/// How many tries of one pass there were, where the other pass of a store serves connections meanwhile.
pub fn serve_meddled<S: Subject + Drop, P: Planner, R: Wait>(
    rt: &R,
    alloc: Global,
    subject: S,
    planner: &P,
    listener: &mut MemoryListener,
    others: MemoryListener,
) -> Result<Option<Meddled>, NoMemory>
    requires fit { (t : StoreTask) → P.fit planner.now t → (S.meaning (S.kind subject)).fit t }
{
    let (service, passes) = Service::new(alloc, subject, 0, 2)?;
    let Some((one, other)) = two_of::<S>(passes) else {
        return Ok(None);
    };
    Ok(Some(meddle(rt, alloc, &service, planner, listener, others, one, other)))
}
