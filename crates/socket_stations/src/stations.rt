ghost use Rattle.std.specs.Prelude.{◌≡◌, All, IfOk, IfSome, IsSome, length};

use ident_rules::NoMemory;
use outer_ends::{OpenGate, SocketListener};
use std::alloc::Global;
use std::net::{Net, TcpListener, TcpStream};
use std::time::{Clock, Duration};
use worker_stations::Station;

/// The seconds that a read or a write of a connection waits at most.
const PATIENCE: u64 = 30;

/// A station at a socket, whose gate stands open.
pub type SocketStation<'r, R, P, E> = Station<SocketListener<&'r R>, OpenGate, P, E>;

/// So many handles of one socket at an address; None where it cannot be had.
fn listeners_at<R: Net<Listener = TcpListener, Stream = TcpStream>>(
    rt: &R,
    alloc: Global,
    address: &str,
    workers: u32,
) -> Option<Vec<TcpListener>> {
    let Ok(inner) = TcpListener::bind(rt, address) else {
        return None;
    };
    let mut listeners = Vec::new(alloc);
    for _ in 0..workers {
        let Ok(own) = inner.try_clone() else {
            return None;
        };
        if listeners.push(own).is_err() {
            return None;
        }
    }
    Some(listeners)
}

/// A station at each of these handles.
fn stations_of<'r, R: Clock, P: Drop, E: Drop>(
    rt: &'r R,
    alloc: Global,
    listeners: Vec<TcpListener>,
) -> Result<Vec<SocketStation<'r, R, P, E>>, NoMemory>
    ensures { IfOk result (λ v. All (λ s. IsSome s.gate) v.items) }
{
    let mut stations = Vec::new(alloc);
    'placing: for listener in listeners {
        let listener = SocketListener::new(rt, listener, Duration::from_secs(PATIENCE));
        stations.push(Station::new(listener, OpenGate))?;
    }
    Ok(stations)
}

/// A station for each of so many workers, all at one socket of that address; None where it cannot be had.
pub fn stations_at<
    'r,
    R: Net<Listener = TcpListener, Stream = TcpStream> + Clock,
    P: Drop,
    E: Drop,
>(rt: &'r R, alloc: Global, address: &str, workers: u32) -> Option<Vec<SocketStation<'r, R, P, E>>>
    ensures many { IfSome result (λ v. length v.items ≡ workers) }
    ensures gates { IfSome result (λ v. All (λ s. IsSome s.gate) v.items) }
{
    let listeners = listeners_at(rt, alloc, address, workers)?;
    let Ok(stations) = stations_of(rt, alloc, listeners) else {
        return None;
    };
    if stations.len() == workers as usize {
        Some(stations)
    } else {
        None
    }
}
