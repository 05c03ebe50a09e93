ghost use Rattle.std.specs.Prelude.{◌≡◌, ◌<◌, ◌+◌, ℕ, true, Some, length};
ghost use mathlib.Core.List.{IsPrefix};
ghost use Rattle.ident_rules.specs.Owned.{is_among};
ghost use Rattle.history_lock.specs.Views.{both_views, is_idle};
ghost use Rattle.history_lock.specs.Making.{Leaves};

use crate::lock::HistoryLock;
use crate::passes::Pass;
use crate::rule::{Keeps, Knows, Law, Merges, Settles, Start};
use atomic_table::{Seat, Table};
use std::alloc::Global;

impl<T: Keeps> HistoryLock<T> {
    /// One pass of two, with the numbers of both. It has seen what the one of them that had seen more has, which begins with what the
    /// other had; its own entries are those of both.
    pub fn join(
        &self,
        one: Pass<T, T::Entry, T::Kind>,
        other: Pass<T, T::Entry, T::Kind>,
    ) -> Pass<T, T::Entry, T::Kind>
        requires locks { (one.lock ≡ self.now.name) × (other.lock ≡ self.now.name) }
        ensures lock { result.lock ≡ self.now.name }
        ensures view { result.view ≡ both_views T.by one.view other.view }
        ensures seen { IsPrefix one.view.seen result.view.seen × IsPrefix other.view.seen result.view.seen }
        ensures mine { length result.view.mine ≡ length one.view.mine + length other.view.mine }
    {
        let Pass { number, mut seat } = one;
        let Pass {
            number: further,
            seat: spent,
        } = other;
        self.table.shared.join_seat::<Merges<T>>(&mut seat, spent);
        self.table.shared.load::<Settles<T>>(&mut seat, 0);
        Pass {
            number: number.min(further),
            seat,
        }
    }

    /// The value, with the pass of all numbers, and how many entries its history has: the history is what the pass has seen, and
    /// all of it is its own.
    pub fn close(self, pass: Pass<T, T::Entry, T::Kind>) -> (T, u64)
        requires lock { pass.lock ≡ self.name }
        requires all { (n : ℕ) → n < self.start.passes → is_among n pass.view.numbers ≡ true }
        ensures stands { T.stands result.0 pass.view.first pass.view.seen }
        ensures kind { pass.view.kind ≡ Some (T.kind result.0) }
        ensures mine { pass.view.mine ≡ pass.view.seen }
        ensures count { result.1 ≡ length pass.view.seen }
    {
        let HistoryLock { table, first } = self;
        let Pass { number: _, seat } = pass;
        let (home, count) = opened(table, first, seat);
        let Some(value) = home else { unreachable!() };
        (value, count)
    }
}

/// What the table of a lock holds at its end, where a seat has all numbers: the value, and how many entries there are.
fn opened<T: Keeps>(
    table: Table<Option<T>, Knows<T::Entry, T::Kind>, Start, Law<T>, Global>,
    first: u64,
    seat: Seat<Option<T>, Knows<T::Entry, T::Kind>>,
) -> (Option<T>, u64)
    requires table { seat.table_id ≡ table.shared.table_id }
    requires shape { (table.shared.table_id.words ≡ 2) × (table.shared.table_id.slots ≡ 1) }
    requires first { first ≡ table.shared.key.first }
    requires idle { is_idle seat.me.0 ≡ true }
    requires all { (n : ℕ) → n < table.shared.key.passes → is_among n seat.me.0.numbers ≡ true }
    ensures { Leaves T.stands T.kind seat.me.0 result.0 result.1 }
{
    let mut closed = table.close_with(seat);
    let home = closed.take(0);
    let last = closed.word(1);
    closed.free();
    (home, last - first)
}
