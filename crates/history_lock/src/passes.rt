ghost use Rattle.std.specs.Prelude.{◌≡◌};

use crate::rule::Knows;
use atomic_table::Seat;
use std::marker::Model;

/// A right to enter a history lock, with what it has seen. Contracts see its lock, its view and its least number.
#[derive(Drop)]
pub struct Pass<T, E, K> {
    pub(crate) number: u32,
    pub(crate) seat: Seat<Option<T>, Knows<E, K>>,
}

impl<T, E, K> Model for Pass<T, E, K> {
    ghost use Rattle.std.specs.Prelude.{◌≡◌, ◌≤◌, true, [], All};
    ghost use Rattle.ident_rules.specs.Owned.{is_among};
    ghost use Rattle.history_lock.specs.Views.{PassState, is_idle};

    ghost Value = { PassState E K };

    ghost view = { λ p. record { lock = p.seat.table_id; view = p.seat.me.0; number = p.number } };

    ghost invariant = { λ p. (is_among p.number p.seat.me.0.numbers ≡ true) × All (λ n. p.number ≤ n) p.seat.me.0.numbers × (is_idle p.seat.me.0 ≡ true) × (p.seat.me.1 ≡ []) };
}

/// The value, while the lock is held. It cannot be dropped: `leave` or `leave_with` spends it.
pub struct Held<T, E, K> {
    pub(crate) number: u32,
    pub(crate) seat: Seat<Option<T>, Knows<E, K>>,
    pub(crate) value: T,
}

impl<T, E, K> Model for Held<T, E, K> {
    ghost use Rattle.std.specs.Prelude.{◌≡◌, ◌≤◌, true, None, [], ◌∷◌, All};
    ghost use Rattle.ident_rules.specs.Owned.{is_among};
    ghost use Rattle.history_lock.specs.Views.{HeldState};

    ghost Value = { HeldState T E K };

    ghost view = { λ h. record { lock = h.seat.table_id; view = h.seat.me.0; number = h.number; value = h.value } };

    ghost invariant = { λ h. (is_among h.number h.seat.me.0.numbers ≡ true) × All (λ n. h.number ≤ n) h.seat.me.0.numbers × (h.seat.me.0.holds ≡ true) × (h.seat.me.1 ≡ (0, None) ∷ []) };
}

impl<T, E, K> Held<T, E, K> {
    ghost use Rattle.std.specs.Prelude.{◌≤◌, true, All};
    ghost use Rattle.std.specs.Borrow.{sem, Lends};
    ghost use Rattle.ident_rules.specs.Owned.{is_among};
    ghost use Rattle.history_lock.specs.contracts.passes.Held.{the_row};

    /// The number of what it leaves: the least of the pass's numbers.
    pub fn number(&self) -> u32
        ensures number { result ≡ self.now.number }
        ensures own { is_among result self.now.view.numbers ≡ true }
        ensures least { All (λ n. result ≤ n) self.now.view.numbers }
    {
        let _held = self;
        self.number
    }

    /// The value, to be changed in place.
    pub fn value(&mut self) -> &mut T
        ensures* lends { sem 𝓛 (Lends (the_row T.row E.row K.row) T.row self.entry result (λ w. record self.old { value = w })) }
        ensures now { result.now ≡ self.old.value }
    {
        &mut self.value
    }
}
