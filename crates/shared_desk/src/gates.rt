use outer_ends::Gate;

/// A gate and how often a desk has passed it.
#[derive(Drop)]
pub(crate) struct CountedGate<G> {
    pub gate: G,
    pub passed: u64,
}

impl<G: Gate> CountedGate<G> {
    // Passes the gate at the next try, whose number stays at the greatest u64.
    pub(crate) fn pass(&mut self) {
        self.passed = self.passed.saturating_add(1);
        self.gate.pass(self.passed);
    }
}
