ghost use Rattle.std.specs.Prelude.{◌≡◌, ◌<◌, ◌≤◌, ℕ, true, All, IfOk, length};
ghost use Rattle.ident_rules.specs.Owned.{is_among};
ghost use Rattle.history_lock.specs.Views.{LockState};
ghost use Rattle.lock_runs.specs.Turns.{IsOf, IsReady, Covers};

use crate::tallies::{Tally, TallyPass, count_so_far, count_some};
use crate::turns::{Turn, take_turns};
use history_lock::HistoryLock;
use ident_rules::NoMemory;
use std::alloc::Global;
use std::sync::Wait;
use std::thread::Threads;

/// In which order two passes are joined.
#[derive(Clone, Copy, Debug, PartialEq, Eq)]
pub enum Order {
    /// The one that was joined last is the first of the two.
    LastFirst,
    /// It is the second.
    LastSecond,
}

/// Joins two passes.
fn joined(lock: &HistoryLock<Tally>, order: Order, whole: TallyPass, pass: TallyPass) -> TallyPass
    requires of_lock { IsOf lock.now whole × IsOf lock.now pass }
    ensures of_lock { IsOf lock.now result }
    ensures whole { (n : ℕ) → is_among n whole.view.numbers ≡ true → is_among n result.view.numbers ≡ true }
    ensures pass { (n : ℕ) → is_among n pass.view.numbers ≡ true → is_among n result.view.numbers ≡ true }
{
    match order {
        Order::LastFirst => lock.join(pass, whole),
        Order::LastSecond => lock.join(whole, pass),
    }
}

/// Makes so many entries with each pass, and joins it to the whole.
fn join_all<R: Wait>(
    rt: &R,
    lock: &HistoryLock<Tally>,
    mut made: Vec<TallyPass>,
    entries: u64,
    order: Order,
    first: TallyPass,
) -> TallyPass
    requires first { IsOf lock.now first }
    requires made { Covers lock.now made.items first }
    ensures of_lock { IsOf lock.now result }
    ensures all { (n : ℕ) → n < lock.now.start.passes → is_among n result.view.numbers ≡ true }
{
    let mut whole = first;
    'joining: while let Some(pass) = made.pop() {
        let own = count_some(rt, lock, pass, entries);
        whole = joined(lock, order, whole, own);
    }
    whole
}

/// How many entries there are at the end of a run: of so many passes, each with so many entries, joined in an order.
pub fn count_of_run<R: Wait>(
    rt: &R,
    alloc: Global,
    passes: u32,
    entries: u64,
    order: Order,
) -> Result<u64, NoMemory>
    requires { (1 ≤ passes) × (passes ≤ 64) }
{
    let (lock, mut made) = HistoryLock::new(alloc, Tally { count: 0 }, 0, passes)?;
    let Some(last) = made.pop() else {
        unreachable!();
    };
    let first = count_some(rt, &lock, last, entries);
    let whole = join_all(rt, &lock, made, entries, order, first);
    let (_, count) = lock.close(whole);
    Ok(count)
}

/// A turn of so many entries for each pass.
fn turns_of(alloc: Global, mut made: Vec<TallyPass>, entries: u64) -> Result<Vec<Turn>, NoMemory>
    ensures ready { (lock : LockState) → All (IsOf lock) made.items → IfOk result (λ turns. All (IsReady lock) turns.items) }
    ensures len { IfOk result (λ turns. length turns.items ≡ length made.items) }
{
    let mut turns = Vec::new(alloc);
    'dealing: while let Some(pass) = made.pop() {
        turns.push(Turn {
            pass: Some(pass),
            entries,
        })?;
    }
    Ok(turns)
}

/// The pass of a turn.
fn pass_of(turn: Turn) -> Option<TallyPass>
    ensures { result ≡ turn.pass }
{
    turn.pass
}

/// How many entries there are where each pass has a thread of its own.
pub fn count_of_threads<R: Threads + Wait + Sync>(
    rt: &R,
    alloc: Global,
    passes: u32,
    entries: u64,
) -> Result<u64, NoMemory>
    requires { (1 ≤ passes) × (passes ≤ 64) }
{
    let (lock, made) = HistoryLock::new(alloc, Tally { count: 0 }, 0, passes)?;
    let mut turns = turns_of(alloc, made, entries)?;
    take_turns(rt, &lock, &mut turns);
    let Some(last) = turns.pop() else {
        return Ok(0);
    };
    match pass_of(last) {
        Some(pass) => Ok(count_so_far(rt, &lock, pass).0),
        None => Ok(0),
    }
}
