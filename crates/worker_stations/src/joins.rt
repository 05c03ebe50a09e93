ghost use Rattle.std.specs.Prelude.{◌≡◌, ℕ, ◌<◌, ◌+◌, All, Some, IsSome, IfSome, length, slice_index_or, sum_by, IsNone};
ghost use Rattle.worker_stations.specs.Stations.{AreServed, IsTaken, Ran, count_of};

use crate::Station;
use std::sync::Wait;
use std::thread::{self, Threads};

/// What runs workers on passes and joins these, as a store behind a history's lock does.
pub trait Joining {
    ghost use Rattle.std.specs.Prelude.{◌≡◌, ◌+◌, List, length, IsSome, IfSome};
    ghost use Rattle.worker_stations.specs.declared.stations.Station.{Station as PlainStation};

    type Lsn;

    type Gt;

    type Pass;

    type Entry;

    type End;

    /// What a station has before its worker runs.
    ghost ready: { Self → PlainStation Self.Lsn Self.Gt Self.Pass Self.End → Type 0 };
    /// What a worker makes of its station.
    ghost ran: { Self → PlainStation Self.Lsn Self.Gt Self.Pass Self.End → PlainStation Self.Lsn Self.Gt Self.Pass Self.End → Type 0 };

    /// It is one of its passes.
    ghost own: { Self → Self.Pass → Type 0 };
    /// Another pass has all that a pass has: what it has seen, and its numbers.
    ghost within: { Self.Pass → Self.Pass → Type 0 };
    /// The entries of a pass.
    ghost mine: { Self.Pass → List Self.Entry };

    /// Runs the worker of one station.
    fn run_one<R: Wait>(
        &self,
        rt: &R,
        station: &mut Station<Self::Lsn, Self::Gt, Self::Pass, Self::End>,
    )
        requires ready { ready self.now station.old }
        ensures ran { ran self.now station.old station.new }
        ensures pass { IsSome station.new.pass }
        ensures own { IfSome station.new.pass (own self.now) };

    fn join(&self, one: Self::Pass, other: Self::Pass) -> Self::Pass
        requires one { own self.now one }
        requires other { own self.now other }
        ensures own { own self.now result }
        ensures one { within one result }
        ensures other { within other result }
        ensures mine { length (mine result) ≡ length (mine one) + length (mine other) };

    /// A pass has all that it has.
    ghost same: { (p : Self.Pass) → within p p };

    /// What has all of a second pass has all that a first has, where the second has it.
    ghost then: { (p q r : Self.Pass) → within p q → within q r → within p r };
}

/// Takes the pass of a station that has one.
fn take_pass<L, G, P, E>(station: &mut Station<L, G, P, E>) -> P
    requires { IsSome station.old.pass }
    ensures pass { station.old.pass ≡ Some result }
    ensures taken { IsTaken station.old station.new }
{
    match station.pass.take() {
        Some(pass) => pass,
        None => unreachable!(),
    }
}

/// What was joined so far, and one more pass.
fn joined<J: Joining>(lock: &J, whole: Option<J::Pass>, pass: J::Pass) -> J::Pass
    requires whole { IfSome whole (J.own lock.now) }
    requires pass { J.own lock.now pass }
    ensures own { J.own lock.now result }
    ensures whole { IfSome whole (λ w. J.within w result) }
    ensures pass { J.within pass result }
    ensures mine { length (J.mine result) ≡ count_of J.mine whole + length (J.mine pass) }
{
    match whole {
        None => pass,
        Some(before) => lock.join(before, pass),
    }
}

/// Joins the passes of all stations. None where there is no station.
pub fn join_all<J: Joining, L, G, E>(
    lock: &J,
    stations: &mut [Station<L, G, J::Pass, E>],
) -> Option<J::Pass>
    requires passes { All (λ s. IsSome s.pass) stations.old }
    requires own { All (λ s. IfSome s.pass (J.own lock.now)) stations.old }
    ensures some { 0 < length stations.old → IsSome result }
    ensures len { length stations.new ≡ length stations.old }
    ensures taken { (i : ℕ) (d : _) → i < length stations.old → IsTaken (slice_index_or stations.old i d) (slice_index_or stations.new i d) }
    ensures own { IfSome result (J.own lock.now) }
    ensures within { IfSome result (λ whole. (i : ℕ) (d : _) → i < length stations.old → IfSome (slice_index_or stations.old i d).pass (λ p. J.within p whole)) }
    ensures mine { IfSome result (λ whole. length (J.mine whole) ≡ sum_by (λ s. count_of J.mine s.pass) stations.old) }
{
    let mut whole = None;
    for k in 0..stations.len() {
        let pass = take_pass(&mut stations[k]);
        whole = Some(joined(lock, whole, pass));
    }
    whole
}

/// Runs one worker on each station, each in a thread of its own where one can be made.
fn run_each<
    J: Joining<Lsn: Send, Gt: Send, Pass: Send, Entry: Send, End: Send> + Sync,
    R: Threads + Wait + Sync,
>(rt: &R, lock: &J, stations: &mut [Station<J::Lsn, J::Gt, J::Pass, J::End>])
    requires some { 0 < length stations.old }
    requires ready { All (J.ready lock.now) stations.old }
    ensures len { length stations.new ≡ length stations.old }
    ensures each { (i : ℕ) (d : _) → i < length stations.old → Ran (J.ran lock.now) (J.own lock.now) (slice_index_or stations.old i d) (slice_index_or stations.new i d) }
{
    let threads = stations.len();
    thread::for_each_mut(
        rt,
        stations,
        threads,
        &|_, station| { lock.run_one(rt, station) },
    );
}

/// Runs one worker on each station, each in a thread of its own where one can be made, and then joins their passes.
pub fn serve_all<
    J: Joining<Lsn: Send, Gt: Send, Pass: Send, Entry: Send, End: Send> + Sync,
    R: Threads + Wait + Sync,
>(rt: &R, lock: &J, stations: &mut [Station<J::Lsn, J::Gt, J::Pass, J::End>]) -> Option<J::Pass>
    requires some { 0 < length stations.old }
    requires ready { All (J.ready lock.now) stations.old }
    ensures some { IsSome result }
    ensures own { IfSome result (J.own lock.now) }
    ensures served { IfSome result (λ whole. AreServed (J.ran lock.now) (J.own lock.now) J.within J.mine whole stations.old stations.new) }
{
    run_each(rt, lock, stations);
    join_all(lock, stations)
}
