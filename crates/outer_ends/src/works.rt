ghost use Rattle.std.specs.Prelude.{◌≡◌, ◌+◌, ◌-◌, ◌^◌, min};

/// A count of steps, kept by what makes them.
#[derive(Debug, Drop)]
pub struct Work {
    /// The number of steps so far. It stays at the greatest `u64`.
    pub done: u64,
}

impl Work {
    /// A count of no step.
    pub fn new() -> Work
        ensures { result ≡ record { done = 0 } }
    {
        Work { done: 0 }
    }

    /// Counts one more step; the greatest `u64` stays as it is.
    pub fn add(&mut self)
        ensures { self.new.done ≡ min (self.old.done + 1) (2 ^ 64 - 1) }
    {
        self.done = self.done.saturating_add(1);
    }
}
