//! Numbers that a seed draws.
ghost use Rattle.std.specs.Prelude.{◌≡◌, ◌<◌, ◌≤◌};
ghost use Rattle.workload_maker.specs.Draws.{drawn, next_state};

use std::marker::Model;

/// A source of numbers, which are the same for the same seed. Contracts see its state, a number below 2^64.
#[derive(Drop)]
pub struct Draws {
    state: u64,
}

impl Model for Draws {
    ghost use Rattle.std.specs.Prelude.{ℕ, ◌<◌, ◌^◌};

    ghost Value = { ℕ };

    ghost view = { λ d. d.state };

    ghost invariant = { λ d. d.state < 2 ^ 64 };
}

impl Draws {
    /// The source of a seed, which is its first state. Takes no memory.
    pub fn new(seed: u64) -> Draws
        ensures { result ≡ seed }
    {
        Draws { state: seed }
    }

    /// Draws a number below another, which is at least 1. Takes no memory.
    pub fn draw(&mut self, below: u64) -> u64
        requires some { 1 ≤ below }
        ensures state { self.new ≡ next_state self.old }
        ensures number { result ≡ drawn self.old below }
        ensures bound { result < below }
    {
        self.state = self
            .state
            .wrapping_mul(6_364_136_223_846_793_005)
            .wrapping_add(1_442_695_040_888_963_407);
        (self.state >> 33) % below
    }
}
