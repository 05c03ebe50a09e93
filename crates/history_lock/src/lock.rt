ghost use Rattle.std.specs.Prelude.{◌≡◌, ◌+◌, ◌<◌, ◌≤◌, ◌^◌, ℕ, true, None, Some, [], ◌∷◌, ◌++◌, List, length, All, IfOk};
ghost use mathlib.Core.List.{IsPrefix};
ghost use Rattle.ident_rules.specs.Owned.{is_among};
ghost use Rattle.history_lock.specs.Views.{new_view, numbers_from, taken_view, free_view, more_view};

use crate::passes::{Held, Pass};
use crate::rule::{Adding, Fetches, Gives, Keeps, Knows, Law, Opens, Raises, Splits, Start, Takes};
use atomic_table::{Seat, Table};
use ident_rules::NoMemory;
use std::alloc::Global;
use std::marker::{Brand, Model};
use std::sync::Wait;
use std::thread;

/// So often a pass tries to take the lock before it lets another thread run.
const TRIES: u32 = 64;

/// A value behind a lock, and the history for which it stands. Contracts see the lock's name and how it began.
#[derive(Drop)]
pub struct HistoryLock<T: Keeps> {
    pub(crate) table: Table<Option<T>, Knows<T::Entry, T::Kind>, Start, Law<T>, Global>,
    pub(crate) first: u64,
}

impl<T: Keeps> Model for HistoryLock<T> {
    ghost use Rattle.std.specs.Prelude.{◌≡◌};
    ghost use Rattle.history_lock.specs.Views.{LockState};

    ghost Value = { LockState };

    ghost view = { λ l. record { name = l.table.shared.table_id; start = l.table.shared.key } };

    ghost invariant = { λ l. (l.table.shared.table_id.words ≡ 2) × (l.table.shared.table_id.slots ≡ 1) × (l.first ≡ l.table.shared.key.first) };
}

impl<T: Keeps> HistoryLock<T> {
    ghost use Rattle.ident_rules.specs.Owned.{entries_by};

    /// Waits until no pass holds the lock, and takes it. The value stands for a history that begins with what the pass had
    /// seen, and whose entries with the pass's numbers are exactly its own. It is the one call that may wait.
    pub fn enter<R: Wait>(
        &self,
        rt: &R,
        pass: Pass<T, T::Entry, T::Kind>,
    ) -> Held<T, T::Entry, T::Kind>
        requires lock { pass.lock ≡ self.now.name }
        ensures lock { (result.lock ≡ pass.lock) × (result.number ≡ pass.number) }
        ensures seen { (log : List T.Entry) × IsPrefix pass.view.seen log × (result.view ≡ taken_view pass.view log) }
        ensures mine { entries_by T.by result.view.numbers result.view.seen ≡ result.view.mine }
        ensures stands { T.stands result.value result.view.first result.view.seen }
        ensures kind { result.view.kind ≡ Some (T.kind result.value) }
    {
        let Pass { number, mut seat } = pass;
        let mut tries: u32 = 0;
        for _ in rt.forever() {
            let found = self
                .table
                .shared
                .compare_exchange::<Takes<T>>(&mut seat, 0, 0, 1);
            if found == 0 {
                return self.fetch(number, seat);
            }
            tries = tries.wrapping_add(1);
            if tries % TRIES == 0 {
                thread::yield_now();
            }
        }
        unreachable!()
    }

    /// Takes the value out of its place.
    fn fetch(
        &self,
        number: u32,
        mut seat: Seat<Option<T>, Knows<T::Entry, T::Kind>>,
    ) -> Held<T, T::Entry, T::Kind>
        requires table { seat.table_id ≡ self.now.name }
        requires own { is_among number seat.me.0.numbers ≡ true }
        requires least { All (λ n. number ≤ n) seat.me.0.numbers }
        requires out { (x : T) × (seat.me.1 ≡ (0, Some x) ∷ []) }
        requires holds { seat.me.0.holds ≡ true }
        ensures value { seat.me.1 ≡ (0, Some result.value) ∷ [] }
        ensures same { (result.lock ≡ seat.table_id) × (result.view ≡ seat.me.0) × (result.number ≡ number) }
    {
        let Some(value) = self.table.shared.exchange(&mut seat, 0, None) else {
            unreachable!()
        };
        Held {
            number,
            seat,
            value,
        }
    }

    /// Puts the value into its place, which the seat still holds.
    pub(crate) fn put_back(&self, seat: &mut Seat<Option<T>, Knows<T::Entry, T::Kind>>, value: T)
        requires table { seat.old.table_id ≡ self.now.name }
        requires out { seat.old.me.1 ≡ (0, None) ∷ [] }
        ensures same { (seat.new.table_id ≡ seat.old.table_id) × (seat.new.id ≡ seat.old.id) }
        ensures put { seat.new.me ≡ (seat.old.me.0, (0, Some value) ∷ []) }
    {
        let empty = self.table.shared.exchange(seat, 0, Some(value));
        let None = empty else { unreachable!() };
    }

    /// Gives the lock back, with a value that stands for what was seen.
    pub fn leave(&self, held: Held<T, T::Entry, T::Kind>) -> Pass<T, T::Entry, T::Kind>
        requires lock { held.lock ≡ self.now.name }
        requires stands { T.stands held.value held.view.first held.view.seen }
        requires kind { held.view.kind ≡ Some (T.kind held.value) }
        ensures lock { (result.lock ≡ held.lock) × (result.number ≡ held.number) }
        ensures view { result.view ≡ free_view held.view }
    {
        let Held {
            number,
            mut seat,
            value,
        } = held;
        self.put_back(&mut seat, value);
        self.table.shared.store::<Gives<T>>(&mut seat, 0, 0);
        Pass { number, seat }
    }

    /// Gives the lock back with one more entry, for which the value now stands. The entry's number in the history is at most
    /// 2^62.
    pub fn leave_with(
        &self,
        held: Held<T, T::Entry, T::Kind>,
        entry: &T::Entry,
    ) -> Pass<T, T::Entry, T::Kind>
        requires lock { held.lock ≡ self.now.name }
        requires stands { T.stands held.value held.view.first (held.view.seen ++ entry.now ∷ []) }
        requires kind { held.view.kind ≡ Some (T.kind held.value) }
        requires own { T.by entry.now ≡ held.number }
        requires room { held.view.first + length held.view.seen < 2 ^ 62 }
        ensures lock { (result.lock ≡ held.lock) × (result.number ≡ held.number) }
        ensures view { result.view ≡ free_view (more_view held.view (entry.now ∷ [])) }
    {
        let Held {
            number,
            mut seat,
            value,
        } = held;
        self.put_back(&mut seat, value);
        self.raise::<Brand>(&mut seat, entry);
        self.table.shared.store::<Gives<T>>(&mut seat, 0, 0);
        Pass { number, seat }
    }

    /// The entry joins the history.
    fn raise<J: Adding<T::Entry>>(
        &self,
        seat: &mut Seat<Option<T>, Knows<T::Entry, T::Kind>>,
        entry: &T::Entry,
    )
        requires table { seat.old.table_id ≡ self.now.name }
        requires entry { J.entries ≡ entry.now ∷ [] }
        requires holds { seat.old.me.0.holds ≡ true }
        requires open { (k : T.Kind) × (seat.old.me.0.kind ≡ Some k) }
        requires own { is_among (T.by entry.now) seat.old.me.0.numbers ≡ true }
        requires room { seat.old.me.0.first + length seat.old.me.0.seen < 2 ^ 62 }
        ensures same { (seat.new.table_id ≡ seat.old.table_id) × (seat.new.id ≡ seat.old.id) }
        ensures more { seat.new.me ≡ (more_view seat.old.me.0 (entry.now ∷ []), seat.old.me.1) }
    {
        self.table.shared.fetch_add::<Raises<T, J>>(seat, 1, 1);
    }
}
