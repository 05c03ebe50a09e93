//! A gate that holds until another connection was written on.
ghost use Rattle.std.specs.Prelude.{◌≡◌};

use outer_ends::{Failed, Gate, Listener, MemoryListener, MemorySink, MemorySource, Sink};
use std::sync::atomic::{AtomicBool, Ordering};
use std::thread;

/// A sink in memory that sets a flag with each write.
#[derive(Drop)]
pub struct FlagSink<'a> {
    /// What is written on.
    pub inner: MemorySink,
    /// What is set.
    pub flag: &'a AtomicBool,
}

impl<'a> Sink for FlagSink<'a> {
    ghost use Rattle.outer_ends.specs.Memory.{sink_told};

    ghost told = { λ s. sink_told s.inner };

    /// Writes, and sets the flag.
    fn write(&mut self, piece: &[u8]) -> Result<usize, Failed> {
        let written = self.inner.write(piece);
        self.flag.store(true, Ordering::SeqCst);
        written
    }
}

/// A listener over connections in memory, a flag being set with each write on one.
#[derive(Drop)]
pub struct FlagListener<'a> {
    /// What gives the connections.
    pub inner: MemoryListener,
    /// What is set.
    pub flag: &'a AtomicBool,
}

impl<'a> Listener for FlagListener<'a> {
    ghost use Rattle.outer_ends.specs.Memory.{listener_told};

    type Src = MemorySource;

    type Snk = FlagSink<'a>;

    ghost told = { λ l. listener_told l.inner };

    /// The next connection in memory.
    fn accept(&mut self) -> Result<(MemorySource, FlagSink<'a>), Failed> {
        let (source, sink) = self.inner.accept()?;
        let flagged = FlagSink {
            inner: sink,
            flag: self.flag,
        };
        Ok((source, flagged))
    }

    fn done(&mut self, source: MemorySource, sink: FlagSink<'a>) {
        let FlagSink { inner, .. } = sink;
        self.inner.done(source, inner);
    }
}

/// A gate that holds its first pass until a flag is set, for at most so many turns.
#[derive(Drop)]
pub struct Hold<'a> {
    /// What it waits for.
    pub flag: &'a AtomicBool,
    /// How many turns at most.
    pub turns: u64,
    /// Whether the flag was set before the last turn.
    pub released: bool,
}

impl<'a> Gate for Hold<'a> {
    /// Waits at the first pass alone.
    fn pass(&mut self, number: u64) {
        if number != 1 {
            return;
        }
        for turn in 0..self.turns {
            if self.flag.load(Ordering::SeqCst) {
                self.released = true;
                return;
            }
            if turn % 1024 == 0 {
                thread::yield_now();
            }
        }
    }
}
