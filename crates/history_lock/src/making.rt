ghost use Rattle.std.specs.Prelude.{◌≡◌, ◌+◌, ◌-◌, ◌<◌, ◌≤◌, ◌^◌, [], map, IfOk};
ghost use Rattle.history_lock.specs.Views.{new_view, numbers_from};
ghost use Rattle.history_lock.specs.Making.{passes_from, AreMade};

use crate::lock::HistoryLock;
use crate::passes::Pass;
use crate::rule::{Fetches, Keeps, Knows, Law, Opens, Splits, Start};
use atomic_table::{Seat, Table};
use ident_rules::NoMemory;
use std::alloc::Global;

impl<T: Keeps + Drop> HistoryLock<T> {
    /// A lock over a value that stands for the empty list behind the number `first`, and its passes, 1 to 64: the i-th, from 0,
    /// has the number i alone. Its one error is want of memory; no later call takes any.
    pub fn new(
        alloc: Global,
        value: T,
        first: u64,
        passes: u32,
    ) -> Result<(HistoryLock<T>, Vec<Pass<T, T::Entry, T::Kind>>), NoMemory>
        requires passes { (1 ≤ passes) × (passes ≤ 64) }
        requires first { first ≤ 2 ^ 62 }
        requires stands { T.stands value first [] }
        ensures { IfOk result (λ r. AreMade first passes (T.kind value) r.0 r.1.items) }
    {
        let start = Start { first, passes };
        let (table, mut seat) = Table::<
            Option<T>,
            Knows<T::Entry, T::Kind>,
            Start,
            Law<T>,
            Global,
        >::vacant(alloc, &[2, first], 1, &start)?;
        table.shared.store::<Fetches<T>>(&mut seat, 0, 2);
        let lock = HistoryLock { table, first };
        lock.put_back(&mut seat, value);
        lock.table.shared.store::<Opens<T>>(&mut seat, 0, 0);
        let made = lock.deal(alloc, seat, passes)?;
        Ok((lock, made))
    }

    /// Gives each number of the first pass a pass of its own.
    fn deal(
        &self,
        alloc: Global,
        mut seat: Seat<Option<T>, Knows<T::Entry, T::Kind>>,
        passes: u32,
    ) -> Result<Vec<Pass<T, T::Entry, T::Kind>>, NoMemory>
        requires some { 1 ≤ passes }
        requires table { seat.table_id ≡ self.now.name }
        requires all { (k : T.Kind) × (seat.me ≡ (new_view self.now.start k (numbers_from 0 passes), [])) }
        ensures { (k : T.Kind) → seat.me ≡ (new_view self.now.start k (numbers_from 0 passes), []) → IfOk result (λ made. made.items ≡ passes_from self.now.name self.now.start k 0 passes) }
    {
        let mut made = Vec::new(alloc);
        for number in 0..passes - 1 {
            let own = self.table.shared.split_seat::<Splits<T>>(&mut seat);
            made.push(Pass { number, seat: own })?;
        }
        made.push(Pass {
            number: passes - 1,
            seat,
        })?;
        Ok(made)
    }
}
