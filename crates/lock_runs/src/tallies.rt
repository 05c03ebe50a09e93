ghost use Rattle.std.specs.Prelude.{◌≡◌};
ghost use Rattle.lock_runs.specs.Turns.{IsOf};
ghost use Rattle.history_lock.specs.Views.{PassState};

use history_lock::{HistoryLock, Keeps, Pass};
use std::sync::Wait;

/// The most that a tally counts to.
const MOST: u64 = 1_000_000_000;

/// A tally, which stands for as many entries as it has counted. It is not copied.
#[derive(Drop)]
pub struct Tally {
    /// How many entries there were.
    pub count: u64,
}

/// An entry.
#[derive(Drop)]
pub struct Made {
    /// The number of the pass that made it.
    pub by: u32,
}

impl Keeps for Tally {
    ghost use Rattle.std.specs.Prelude.{◌≡◌, length};

    type Entry = Made;

    type Kind = ();

    ghost stands = { λ t first entries. t.count ≡ length entries };

    ghost by = { λ e. e.by };

    ghost kind = { λ t. tt };
}

/// A pass of a lock over a tally.
pub type TallyPass = Pass<Tally, Made, ()>;

/// Makes one entry with a pass, where there is room for it.
pub fn count_one<R: Wait>(rt: &R, lock: &HistoryLock<Tally>, pass: TallyPass) -> TallyPass
    requires of_lock { IsOf lock.now pass }
    ensures of_lock { IsOf lock.now result }
    ensures numbers { result.view.numbers ≡ pass.view.numbers }
{
    let mut held = lock.enter(rt, pass);
    let tally = held.value();
    if tally.count >= MOST {
        return lock.leave(held);
    }
    tally.count += 1;
    let made = Made { by: held.number() };
    lock.leave_with(held, &made)
}

/// Makes so many entries with a pass.
pub fn count_some<R: Wait>(
    rt: &R,
    lock: &HistoryLock<Tally>,
    pass: TallyPass,
    entries: u64,
) -> TallyPass
    requires of_lock { IsOf lock.now pass }
    ensures of_lock { IsOf lock.now result }
    ensures numbers { result.view.numbers ≡ pass.view.numbers }
{
    let mut pass = pass;
    for _ in 0..entries {
        pass = count_one(rt, lock, pass);
    }
    pass
}

/// How far the tally has come.
pub fn count_so_far<R: Wait>(rt: &R, lock: &HistoryLock<Tally>, pass: TallyPass) -> (u64, TallyPass)
    requires of_lock { IsOf lock.now pass }
    ensures of_lock { IsOf lock.now result.1 }
{
    let mut held = lock.enter(rt, pass);
    let count = held.value().count;
    (count, lock.leave(held))
}
