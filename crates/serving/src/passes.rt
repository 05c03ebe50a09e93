ghost use Rattle.std.specs.Prelude.{◌≡◌, ℕ, ◌<◌, Some, get_or, length, slice_index_or};

use worker_stations::Station;

// Puts a pass into a station.
fn put_pass<L, G, P: Drop, E>(station: &mut Station<L, G, P, E>, pass: P)
    ensures { station.new ≡ record station.old { pass = Some pass } }
{
    station.pass = Some(pass);
}

/// Gives each station the pass at its place.
pub fn give_passes<L, G, P: Drop, E>(passes: Vec<P>, stations: &mut [Station<L, G, P, E>])
    requires len { length passes.items ≡ length stations.old }
    ensures len { length stations.new ≡ length stations.old }
    ensures given { (i : ℕ) (d : _) (p : _) → i < length stations.old → slice_index_or stations.new i d ≡ record (slice_index_or stations.old i d) { pass = Some (get_or passes.items i p) } }
{
    let mut passes = passes;
    'giving: while let Some(pass) = passes.pop() {
        let place = passes.len();
        put_pass(&mut stations[place], pass);
    }
}
