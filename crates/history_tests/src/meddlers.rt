//! A gate at which another pass of the same store is served.
ghost use Rattle.std.specs.Prelude.{◌≡◌};
ghost use Rattle.task_forms.specs.declared.tasks.Task.{Task as StoreTask};

use connection_workers::serve_worker;
use outer_ends::{Gate, MemoryListener, OpenGate};
use session_engine::Limits;
use shared_desk::SharedDesk;
use std::alloc::Global;
use std::marker::Model;
use std::sync::Wait;
use task_forms::Planner;
use trial_subject::{Answers, Subject};

/// A gate at which, each time that it is passed, a second desk of the same store serves the next connection of a listener.
#[derive(Drop)]
pub struct Meddler<'a, S: Answers + Drop, P: Planner, R> {
    alloc: Global,
    planner: &'a P,
    desk: SharedDesk<'a, S, OpenGate, R>,
    listener: MemoryListener,
    last: u64,
}

impl<'a, S: Answers + Drop, P: Planner, R> Model for Meddler<'a, S, P, R> {
    ghost use Rattle.task_forms.specs.declared.tasks.Task.{Task as StoreTask};
    ghost use Rattle.outer_ends.specs.Memory.{ListenerState};

    ghost Value = { ListenerState };

    ghost view = { λ m. m.listener };

    // The planner's tasks are fit for the desk's store.
    ghost invariant = { λ m. (t : StoreTask) → P.fit m.planner.now t → (S.meaning m.desk.kind).fit t };
}

impl<'a, S: Answers + Drop, P: Planner, R> Meddler<'a, S, P, R> {
    /// A gate that serves the connections of this listener over this desk.
    pub fn new(
        alloc: Global,
        planner: &'a P,
        desk: SharedDesk<'a, S, OpenGate, R>,
        listener: MemoryListener,
    ) -> Meddler<'a, S, P, R>
        requires fit { (t : StoreTask) → P.fit planner.now t → (S.meaning desk.kind).fit t }
        ensures { result ≡ listener }
    {
        Meddler {
            alloc,
            planner,
            desk,
            listener,
            last: 0,
        }
    }

    /// The number with which it was passed last, 0 before.
    pub fn last(&self) -> u64 {
        self.last
    }

    /// The listener.
    pub fn into_listener(self) -> MemoryListener
        ensures { result ≡ self.entry }
    {
        let Meddler { listener, .. } = self;
        listener
    }
}

impl<'a, S: Subject + Drop, P: Planner, R: Wait> Gate for Meddler<'a, S, P, R> {
    /// Serves the next connection, where there is one. It may wait.
    fn pass(&mut self, number: u64) {
        self.last = number;
        let limits = Limits::standard();
        let _end = serve_worker(
            self.alloc,
            limits,
            self.planner,
            &mut self.listener,
            &mut self.desk,
            1,
        );
    }
}
