ghost use Rattle.std.specs.Prelude.{◌≡◌};

use crate::{OpenEnd, Opener, StreamSource};
use std::fs::{self, File};
use std::io::ErrorKind;
use std::rt::Files;

/// A source over an open file of the system. It tells no bytes.
pub type FileSource = StreamSource<File>;

/// Opens files of the system by their paths, to be read from their start.
///
/// The system is that of the runtime value `R`, whose files it opens; no contract tells what they hold.
#[derive(Drop)]
pub struct FileOpener<R> {
    system: R,
    misses: u64,
    faults: u64,
}

impl<R: Files> FileOpener<R> {
    /// An opener that has opened nothing, and has missed nothing.
    pub fn new(system: R) -> FileOpener<R>
        ensures misses { (⟦<FileOpener<R> as Opener>⟧.told result).misses ≡ 0 }
        ensures faults { (⟦<FileOpener<R> as Opener>⟧.told result).faults ≡ 0 }
    {
        FileOpener {
            system,
            misses: 0,
            faults: 0,
        }
    }

    /// How often a path was not there; it stays at the greatest `u64`.
    pub fn misses(&self) -> u64
        ensures { result ≡ (⟦<FileOpener<R> as Opener>⟧.told self.now).misses }
    {
        self.misses
    }

    /// How often it, or a file that was given back, has failed; it stays at the greatest `u64`.
    pub fn faults(&self) -> u64
        ensures { result ≡ (⟦<FileOpener<R> as Opener>⟧.told self.now).faults }
    {
        self.faults
    }
}

impl<R: Files> Opener for FileOpener<R> {
    ghost use Rattle.std.specs.Prelude.{None};

    type Src = StreamSource<R::File>;

    ghost told = { λ o. record { files = None; misses = o.misses; faults = o.faults } };

    fn open(&mut self, name: &str) -> Result<StreamSource<R::File>, OpenEnd> {
        match fs::open(&self.system, name) {
            Ok(file) => Ok(StreamSource::new(file)),
            Err(error) if error.kind() == ErrorKind::NotFound => {
                self.misses = self.misses.saturating_add(1);
                Err(OpenEnd::Missing)
            }
            Err(_) => {
                self.faults = self.faults.saturating_add(1);
                Err(OpenEnd::Failed)
            }
        }
    }

    fn done(&mut self, source: StreamSource<R::File>) {
        if source.faults() > 0 {
            self.faults = self.faults.saturating_add(1);
        }
    }
}
