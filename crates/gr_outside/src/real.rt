// The trusted edge: real files and standard output. Any call can fail. Of a file no bytes are told, and of a sink those that its writer holds, where that tells them.
ghost use Rattle.std.specs.Prelude.{◌≡◌};

use super::{Failed, Files, OpenFault, Sink, Source};
use std::alloc::Global;
use std::io::{ErrorKind, Read, Write};
use std::marker::Model;
use std::{fs, rt};

/// Files by name, as the runtime opens them. Contracts see the count of faults alone.
#[derive(Drop)]
pub struct RealFiles<R> {
    runtime: R,
    faults: u64,
}

/// The bytes of an opened file. Contracts see the count of faults alone.
#[derive(Drop)]
pub struct RealSource<S> {
    reader: S,
    faults: u64,
}

/// Where replies are written. Contracts see what the writer holds, where it tells it, and the count of faults.
#[derive(Drop)]
pub struct RealSink<W: Write> {
    writer: W,
    faults: u64,
}

impl<R> Model for RealFiles<R> {
    ghost use Rattle.std.specs.Prelude.{ℕ};

    ghost Value = { ℕ };

    ghost view = { λ files. files.faults };
}

impl<S> Model for RealSource<S> {
    ghost use Rattle.std.specs.Prelude.{ℕ};

    ghost Value = { ℕ };

    ghost view = { λ source. source.faults };
}

impl<W: Write> Model for RealSink<W> {
    ghost use Rattle.gr_outside.specs.Outside.{Taken};

    ghost Value = { Taken };

    ghost view = { λ sink. record { bytes = W.contents sink.writer; faults = sink.faults } };
}

impl<R: rt::Files + Drop> RealFiles<R> {
    /// The files of this runtime; none was opened yet.
    pub fn new(runtime: R) -> RealFiles<R>
        ensures { result ≡ 0 }
    {
        RealFiles { runtime, faults: 0 }
    }
}

impl<S: Read + Drop> RealSource<S> {
    // What this reader gives, from where it stands.
    fn new(reader: S) -> RealSource<S>
        ensures { result ≡ 0 }
    {
        RealSource { reader, faults: 0 }
    }
}

impl<W: Write + Drop> RealSink<W> {
    /// What is written goes to this writer.
    pub fn new(writer: W) -> RealSink<W>
        ensures { result ≡ record { bytes = W.contents writer; faults = 0 } }
    {
        RealSink { writer, faults: 0 }
    }
}

impl<R: rt::Files + Drop> Files for RealFiles<R>
where
    R::File: Send,
{
    type File = RealSource<R::File>;

    ghost use Rattle.std.specs.Prelude.{None};

    ghost told = { λ files. record {
      named = λ _. record { bytes = None; reaches = λ _ _. Unit {0}; can_fail = Unit {0} };
      faults = files;
    } };

    fn open(&mut self, _alloc: Global, name: &str) -> Result<RealSource<R::File>, OpenFault> {
        match fs::open(&self.runtime, name) {
            Ok(file) => Ok(RealSource::new(file)),
            Err(_) => {
                self.faults += 1;
                Err(OpenFault::Failed)
            }
        }
    }
}

impl<S: Read + Drop> Source for RealSource<S> {
    ghost use Rattle.std.specs.Prelude.{None};

    ghost told = { λ source. record { left = None; faults = source; reaches = λ _ _. Unit {0} } };

    fn read(&mut self, room: &mut [u8]) -> Result<usize, Failed> {
        for _ in 0..u64::MAX {
            match self.reader.read(room) {
                Ok(given) => return Ok(given),
                Err(error) if error.kind() == ErrorKind::Interrupted => {}
                Err(_) => break,
            }
        }
        self.faults += 1;
        Err(Failed {
            faults: self.faults,
        })
    }

    ghost reaches_now = { λ _. tt };
}

impl<W: Write + Drop> Sink for RealSink<W> {
    ghost taken = { λ sink. sink };

    fn write(&mut self, piece: &[u8]) -> Result<usize, Failed> {
        for _ in 0..u64::MAX {
            match self.writer.write(piece) {
                Ok(0) => break,
                Ok(taken) => return Ok(taken),
                Err(error) if error.kind() == ErrorKind::Interrupted => {}
                Err(_) => break,
            }
        }
        self.faults += 1;
        Err(Failed {
            faults: self.faults,
        })
    }
}

#[cfg(test)]
mod tests;
