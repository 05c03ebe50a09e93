//! Two passes of one store that serve connections in their turns, each over a desk of its own; then they are joined, and the store is closed.
ghost use Rattle.std.specs.Prelude.{◌≡◌, ◌∷◌, [], IfSome};
ghost use Rattle.commit_core.specs.Serving.{IsPassOf};
ghost use Rattle.task_forms.specs.declared.tasks.Task.{Task as StoreTask};

use commit_core::{Core, Service};
use connection_workers::serve_worker;
use history_lock::Pass;
use ident_rules::NoMemory;
use outer_ends::{MemoryListener, OpenGate};
use session_engine::Limits;
use shared_desk::SharedDesk;
use std::alloc::Global;
use std::sync::Wait;
use task_forms::{Entry, Planner};
use trial_subject::Subject;

/// Serves the next connection of a listener over a desk of this pass.
fn serve_next<S: Subject + Drop, P: Planner, R: Wait>(
    rt: &R,
    alloc: Global,
    service: &Service<S>,
    planner: &P,
    listener: &mut MemoryListener,
    pass: Pass<Core<S>, Entry, S::Kind>,
) -> Pass<Core<S>, Entry, S::Kind>
    requires own { IsPassOf S.kind service.now pass }
    requires fit { (t : StoreTask) → P.fit planner.now t → (S.meaning (S.kind service.now.subject)).fit t }
    ensures own { IsPassOf S.kind service.now result }
    ensures numbers { result.view.numbers ≡ pass.view.numbers }
{
    let mut desk = SharedDesk::new(rt, alloc, service, pass, OpenGate);
    let _end = serve_worker(alloc, Limits::standard(), planner, listener, &mut desk, 1);
    let (pass, _gate) = desk.into_pass();
    pass
}

/// The two passes, where there are two.
fn two_of<S: Subject + Drop>(
    passes: Vec<Pass<Core<S>, Entry, S::Kind>>,
) -> Option<(Pass<Core<S>, Entry, S::Kind>, Pass<Core<S>, Entry, S::Kind>)>
    ensures { IfSome result (λ r. passes.items ≡ r.0 ∷ r.1 ∷ []) }
{
    let mut passes = passes;
    let other = passes.pop()?;
    let one = passes.pop()?;
    if passes.is_empty() {
        Some((one, other))
    } else {
        None
    }
}

/// How many entries there are where one pass of two serves a connection, the other serves one then, and the one serves one more, all over one
/// new store.
pub fn count_of_turns<S: Subject + Drop, P: Planner, R: Wait>(
    rt: &R,
    alloc: Global,
    subject: S,
    planner: &P,
    first: &mut MemoryListener,
    second: &mut MemoryListener,
    third: &mut MemoryListener,
) -> Result<Option<u64>, NoMemory>
    requires fit { (t : StoreTask) → P.fit planner.now t → (S.meaning (S.kind subject)).fit t }
{
    let (service, passes) = Service::new(alloc, subject, 0, 2)?;
    let Some((one, other)) = two_of::<S>(passes) else {
        return Ok(None);
    };
    let one = serve_next(rt, alloc, &service, planner, first, one);
    let other = serve_next(rt, alloc, &service, planner, second, other);
    let again = serve_next(rt, alloc, &service, planner, third, one);
    let whole = service.join(again, other);
    let (_core, count) = service.close(whole);
    Ok(Some(count))
}
