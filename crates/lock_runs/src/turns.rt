ghost use Rattle.std.specs.Prelude.{◌≡◌, ◌<◌, All, length};
ghost use Rattle.lock_runs.specs.Turns.{IsReady};

use crate::tallies::{Tally, TallyPass, count_some};
use history_lock::HistoryLock;
use std::sync::Wait;
use std::thread::{self, Threads};

/// What one thread does: so many entries with its pass.
#[derive(Drop)]
pub struct Turn {
    /// The pass, which is there before and after.
    pub pass: Option<TallyPass>,
    /// How many entries it makes.
    pub entries: u64,
}

/// Takes one turn.
fn take_turn<R: Wait>(rt: &R, lock: &HistoryLock<Tally>, turn: &mut Turn)
    requires ready { IsReady lock.now turn.old }
    ensures ready { IsReady lock.now turn.new }
{
    let Some(pass) = turn.pass.take() else {
        unreachable!();
    };
    turn.pass = Some(count_some(rt, lock, pass, turn.entries));
}

/// Takes all turns, each in a thread of its own where one can be made.
pub fn take_turns<R: Threads + Wait + Sync>(rt: &R, lock: &HistoryLock<Tally>, turns: &mut [Turn])
    requires some { 0 < length turns.old }
    requires ready { All (IsReady lock.now) turns.old }
    ensures ready { All (IsReady lock.now) turns.new }
    ensures len { length turns.new ≡ length turns.old }
{
    let threads = turns.len();
    thread::for_each_mut(rt, turns, threads, &|_, turn| take_turn(rt, lock, turn));
}
