ghost use Rattle.std.specs.Prelude.{◌≡◌, ◌≤◌, All, length, sum_by};
ghost use Rattle.serve_lines.specs.declared.words.TheConstants.{WORKER_LIMIT};
ghost use Rattle.std.specs.List.{list_all};
ghost use Rattle.serving.specs.Counts.{IsCounted, is_by_quota, requests_at, sessions_at};

use connection_workers::{Cause, WorkerEnd};
use serve_lines::Served;
use worker_stations::Station;

// The connections and the messages of one station's worker.
fn counted_at(end: &Option<WorkerEnd>) -> (u64, u64)
    ensures sessions { result.0 ≡ sessions_at end.now }
    ensures requests { result.1 ≡ requests_at end.now }
{
    match end {
        Some(end) => (end.sessions, end.requests),
        None => (0, 0),
    }
}

/// What the workers of some stations did together, with so many entries.
pub fn served_by<L, G, P>(stations: &[Station<L, G, P, WorkerEnd>], entries: u64) -> Served
    requires few { length stations.now ≤ WORKER_LIMIT }
    requires counted { All (λ s. IsCounted s.end) stations.now }
    ensures sessions { result.sessions ≡ sum_by (λ s. sessions_at s.end) stations.now }
    ensures requests { result.requests ≡ sum_by (λ s. requests_at s.end) stations.now }
    ensures entries { result.entries ≡ entries }
{
    let mut sessions = 0;
    let mut requests = 0;
    for station in stations {
        let (served, answered) = counted_at(&station.end);
        sessions += served;
        requests += answered;
    }
    Served {
        sessions,
        requests,
        entries,
    }
}

// Whether a worker ended by its quota.
fn is_by_quota(end: &Option<WorkerEnd>) -> bool
    ensures { result ≡ is_by_quota end.now }
{
    match end {
        Some(end) => end.cause == Cause::Quota,
        None => false,
    }
}

/// Whether the worker of each station served as many connections as it was to.
pub fn all_by_quota<L, G, P>(stations: &[Station<L, G, P, WorkerEnd>]) -> bool
    ensures { result ≡ list_all (λ s. is_by_quota s.end) stations.now }
{
    stations.iter().all(|station| is_by_quota(&station.end))
}
