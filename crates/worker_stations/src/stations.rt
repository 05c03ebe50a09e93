ghost use Rattle.std.specs.Prelude.{◌≡◌, None, Some};

/// A place at which one worker serves: where it accepts connections, the gate of its desk, and while no worker runs its pass and
/// the end of its worker.
#[derive(Drop)]
pub struct Station<L, G, P, E> {
    /// Where connections are accepted.
    pub listener: L,
    /// What its desk passes between a try and a commit.
    pub gate: Option<G>,
    /// The pass of its worker.
    pub pass: Option<P>,
    /// What its worker came to.
    pub end: Option<E>,
}

impl<L, G, P, E> Station<L, G, P, E> {
    /// A station with a gate, without a pass and without an end. Takes no memory.
    pub fn new(listener: L, gate: G) -> Station<L, G, P, E>
        ensures { result ≡ record { listener = listener; gate = Some gate; pass = None; end = None } }
    {
        Station {
            listener,
            gate: Some(gate),
            pass: None,
            end: None,
        }
    }
}
