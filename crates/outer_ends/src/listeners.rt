ghost use Rattle.std.specs.Prelude.{◌≡◌, ◌∷◌, ◌+◌, ◌<◌, [], ◌++◌, All, IfOk, OnErr, IsTrue, is_err, MatchResult, IsSome};
ghost use Rattle.outer_ends.specs.Causes.{HasCause, one_more};
ghost use Rattle.outer_ends.specs.Memory.{IsNew, source_told, sink_told, listener_told};
ghost use Rattle.outer_ends.specs.Connections.{CountsLive, IsAccepted, TellsAll, Closes};

use crate::{Failed, Listener, MemorySink, MemorySource};
use std::alloc::Global;
use std::marker::Model;

/// A listener over connections in memory, which it gives in their order, and keeps when they are given back.
#[derive(Drop)]
pub struct MemoryListener {
    /// Those that are still to come, the last one first.
    waiting: Vec<(MemorySource, MemorySink)>,
    closed: Vec<(MemorySource, MemorySink)>,
    live: usize,
    failing: Vec<u64>,
    calls: u64,
    faults: u64,
}

impl Model for MemoryListener {
    ghost use Rattle.std.specs.Prelude.{◌+◌, ◌≤◌, vec_len, vec_capacity, reverse, All};
    ghost use Rattle.outer_ends.specs.Memory.{ListenerState, IsNew};

    ghost Value = { ListenerState };

    ghost view = { λ l. record {
      waiting = reverse l.waiting.items;
      closed = l.closed.items;
      live = l.live;
      failing = l.failing.items;
      calls = l.calls;
      faults = l.faults;
    } };

    // There is room for each connection that is still out.
    ghost invariant = { λ l. (vec_len l.closed + l.live ≤ vec_capacity l.closed) × All IsNew l.waiting.items };
}

impl MemoryListener {
    /// A listener that gives these connections in their order, then none. Each source has taken nothing, each sink
    /// has written nothing, and neither has failed. `failing` has the numbers, from 1, of the calls of `accept` that
    /// are to fail.
    pub fn new(
        alloc: Global,
        connections: Vec<(MemorySource, MemorySink)>,
        failing: Vec<u64>,
    ) -> MemoryListener
        requires { All IsNew connections.items }
        ensures { result ≡ record {
          waiting = connections.items;
          closed = [];
          live = 0;
          failing = failing.items;
          calls = 0;
          faults = 0;
        } }
    {
        let mut waiting = connections;
        waiting.reverse();
        MemoryListener {
            waiting,
            closed: Vec::new(alloc),
            live: 0,
            failing,
            calls: 0,
            faults: 0,
        }
    }

    /// The connections that were given back, in order.
    pub fn closed(&self) -> &[(MemorySource, MemorySink)]
        ensures { result.now ≡ self.now.closed }
    {
        &self.closed
    }

    /// How often it has failed; it stays at the greatest `u64`.
    pub fn faults(&self) -> u64
        ensures { result ≡ self.now.faults }
    {
        self.faults
    }
}

impl Listener for MemoryListener {
    ghost use Rattle.outer_ends.specs.Memory.{listener_told, is_next_failing, next_call};

    type Src = MemorySource;

    type Snk = MemorySink;

    ghost told = { listener_told };

    /// Fails in the calls that are to fail, where no connection is left, where there is no memory for what `done` is to
    /// keep, and where as many connections are out as can be counted; else gives the next connection.
    fn accept(&mut self) -> Result<(MemorySource, MemorySink), Failed>
        ensures cause { HasCause self.old.faults self.new.faults result }
        ensures one { OnErr result (self.new.faults ≡ one_more self.old.faults) }
        ensures live { CountsLive (listener_told self.old) (listener_told self.new) result }
        ensures fresh { IfOk result (λ c. IsAccepted (source_told c.0) (sink_told c.1)) }
        ensures tells { IfOk result (λ c. IsSome (listener_told self.old).closed → TellsAll (source_told c.0) (sink_told c.1)) }
        ensures fails { IsTrue (is_next_failing self.old.failing self.old.calls) → IsTrue (is_err result) }
        ensures next { MatchResult result (λ c. self.old.waiting ≡ c ∷ self.new.waiting) (λ _. self.new.waiting ≡ self.old.waiting) }
        ensures closed { self.new.closed ≡ self.old.closed }
        ensures calls { self.new.calls ≡ next_call self.old.calls }
        ensures script { self.new.failing ≡ self.old.failing }
    {
        self.calls = self.calls.saturating_add(1);
        if self.failing.contains(&self.calls) || self.live == usize::MAX {
            self.faults = self.faults.saturating_add(1);
            return Err(Failed);
        }
        let room = self.live + 1;
        let Ok(()) = self.closed.reserve(room) else {
            self.faults = self.faults.saturating_add(1);
            return Err(Failed);
        };
        match self.waiting.pop() {
            Some(connection) => {
                self.live = room;
                Ok(connection)
            }
            None => {
                self.faults = self.faults.saturating_add(1);
                Err(Failed)
            }
        }
    }

    fn done(&mut self, source: MemorySource, sink: MemorySink)
        requires live { 0 < self.old.live }
        ensures live { self.old.live ≡ self.new.live + 1 }
        ensures closed { Closes (listener_told self.old) (listener_told self.new) (source_told source) (sink_told sink) }
        ensures kept { self.new.closed ≡ self.old.closed ++ (source, sink) ∷ [] }
        ensures others { self.new ≡ record self.old { closed = self.new.closed; live = self.new.live } }
    {
        self.live -= 1;
        self.closed.push_reserved((source, sink));
    }
}
