ghost use Rattle.std.specs.Prelude.{◌≡◌, IfSome};
ghost use Rattle.outer_ends.specs.Connections.{IsAccepted};

use crate::{Failed, Listener, Sink, Source, StreamSink, StreamSource};
use std::io::{self, ErrorKind, Read, Write};
use std::net::{Shutdown, TcpListener, TcpStream};
use std::thread;
use std::time::{Clock, Duration};

/// The most reads of what a client still sends behind the last reply, of 16,384 bytes each.
const LAST_READS: u32 = 64;

/// The milliseconds that each of them waits at most.
const LAST_WAIT: u64 = 500;

/// How often a failed accept is tried again.
const TRIES: u32 = 100;

/// The milliseconds between two tries.
const PAUSE: u64 = 10;

/// How often a call that a signal broke off is made again.
const SIGNALS: u32 = 1000;

/// A stream whose calls are made again where a signal broke them off.
#[derive(Drop)]
pub struct SteadyStream(TcpStream);

impl Read for SteadyStream {
    fn read(&mut self, room: &mut [u8]) -> io::Result<usize> {
        for _ in 0..SIGNALS {
            match self.0.read(room) {
                Err(error) if error.kind() == ErrorKind::Interrupted => (),
                Err(error) => return Err(error),
                Ok(count) => return Ok(count),
            }
        }
        Err(io::Error::from(ErrorKind::Interrupted))
    }
}

impl Write for SteadyStream {
    fn write(&mut self, piece: &[u8]) -> io::Result<usize> {
        for _ in 0..SIGNALS {
            match self.0.write(piece) {
                Err(error) if error.kind() == ErrorKind::Interrupted => (),
                Err(error) => return Err(error),
                Ok(count) => return Ok(count),
            }
        }
        Err(io::Error::from(ErrorKind::Interrupted))
    }

    fn flush(&mut self) -> io::Result<()> {
        Ok(())
    }
}

/// What is read from a socket and what is written to it.
type SocketEnds = (StreamSource<SteadyStream>, StreamSink<SteadyStream>);

/// A listener on a socket of the system, whose clock is that of the runtime value `R`. It tells no bytes.
///
/// A read or a write that waits longer than `patience` fails, so that a silent client does not keep a worker for ever. Each
/// end of a connection is a handle of its own of one socket, which is closed where both were given back.
#[derive(Drop)]
pub struct SocketListener<R> {
    system: R,
    inner: TcpListener,
    patience: Duration,
    live: u64,
    faults: u64,
}

/// The two ends of a stream, or None where the system has no handle for the second one.
fn ends_of(stream: TcpStream, patience: Duration) -> Option<SocketEnds>
    ensures { IfSome result (λ e. IsAccepted (⟦<StreamSource<SteadyStream> as Source>⟧.told e.0) (⟦<StreamSink<SteadyStream> as Sink>⟧.told e.1)) }
{
    let Ok(other) = stream.try_clone() else {
        return None;
    };
    // A reply goes out at once, also while an earlier one is not acknowledged. Where this can't be had it only takes longer.
    let _ = other.set_nodelay(true);
    // The two are one socket, so the limits of time hold for both.
    let _ = other.set_read_timeout(Some(patience));
    let _ = other.set_write_timeout(Some(patience));
    Some((
        StreamSource::new(SteadyStream(stream)),
        StreamSink::new(SteadyStream(other)),
    ))
}

/// Says that no more is to come, and takes what the client still sends: to close a socket while bytes wait in it would
/// reset the connection, and the client could lose the last reply (RFC 9112, section 9.6).
fn see_off(stream: SteadyStream) {
    let mut stream = stream;
    let Ok(()) = stream.0.shutdown(Shutdown::Write) else {
        return;
    };
    let Ok(()) = stream
        .0
        .set_read_timeout(Some(Duration::from_millis(LAST_WAIT)))
    else {
        return;
    };
    let mut room = [0; 16384];
    for _ in 0..LAST_READS {
        match stream.read(&mut room) {
            Ok(0) => return,
            Ok(_) => (),
            Err(_) => return,
        }
    }
}

impl<R: Clock> SocketListener<R> {
    /// A listener that has accepted nothing.
    pub fn new(system: R, inner: TcpListener, patience: Duration) -> SocketListener<R>
        ensures live { (⟦<SocketListener<R> as Listener>⟧.told result).live ≡ 0 }
        ensures faults { (⟦<SocketListener<R> as Listener>⟧.told result).faults ≡ 0 }
    {
        SocketListener {
            system,
            inner,
            patience,
            live: 0,
            faults: 0,
        }
    }

    /// How often no connection could be accepted; it stays at the greatest `u64`.
    pub fn faults(&self) -> u64
        ensures { result ≡ (⟦<SocketListener<R> as Listener>⟧.told self.now).faults }
    {
        self.faults
    }

    /// The next connection, or None where none could be had for a second: a system that is short of descriptors or of
    /// memory for a moment does not end the worker.
    fn next(&self) -> Option<SocketEnds>
        ensures { IfSome result (λ e. IsAccepted (⟦<StreamSource<SteadyStream> as Source>⟧.told e.0) (⟦<StreamSink<SteadyStream> as Sink>⟧.told e.1)) }
    {
        for _ in 0..TRIES {
            if let Ok((stream, _)) = self.inner.accept()
                && let Some(ends) = ends_of(stream, self.patience)
            {
                return Some(ends);
            }
            thread::sleep(&self.system, Duration::from_millis(PAUSE));
        }
        None
    }
}

impl<R: Clock> Listener for SocketListener<R> {
    ghost use Rattle.std.specs.Prelude.{None};

    type Src = StreamSource<SteadyStream>;

    type Snk = StreamSink<SteadyStream>;

    ghost told = { λ l. record { live = l.live; closed = None; faults = l.faults } };

    fn accept(&mut self) -> Result<(StreamSource<SteadyStream>, StreamSink<SteadyStream>), Failed> {
        if self.live < u64::MAX
            && let Some(ends) = self.next()
        {
            self.live += 1;
            return Ok(ends);
        }
        self.faults = self.faults.saturating_add(1);
        Err(Failed)
    }

    fn done(&mut self, _source: StreamSource<SteadyStream>, sink: StreamSink<SteadyStream>) {
        self.live -= 1;
        see_off(sink.into_inner());
    }
}
