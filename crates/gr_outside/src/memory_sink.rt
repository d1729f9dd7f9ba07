// A sink in memory, with the calls that are to fail.
ghost use Rattle.std.specs.Prelude.{◌≡◌, ◌<◌, Ok};
ghost use Rattle.gr_outside.specs.Memory.{writing_with};

use super::memory_source::is_failing;
use super::{Calls, Failed, Sink};
use gr_base::NoMemory;
use std::alloc::Global;
use std::marker::Model;

/// Keeps what is written to it, in pieces of at most `largest` bytes.
#[derive(Drop)]
pub struct MemorySink {
    taken: Vec<u8>,
    failing: Calls,
    call: u64,
    largest: usize,
    faults: u64,
}

impl Model for MemorySink {
    ghost use Rattle.std.specs.Prelude.{◌<◌};
    ghost use Rattle.gr_outside.specs.Memory.{Writing};

    ghost Value = { Writing };

    ghost view = { λ s. record { taken = s.taken.items; failing = s.failing; call = s.call; largest = s.largest; faults = s.faults } };

    ghost invariant = { λ s. 0 < s.largest };
}

impl MemorySink {
    /// An empty sink. The calls of these numbers fail, and each other takes at most `largest` bytes.
    pub fn new(alloc: Global, failing: Calls, largest: usize) -> Result<MemorySink, NoMemory>
        requires { 0 < largest }
        ensures { result ≡ Ok (writing_with failing largest) }
    {
        Ok(MemorySink {
            taken: Vec::new(alloc),
            failing,
            call: 0,
            largest,
            faults: 0,
        })
    }

    /// The bytes taken so far.
    pub fn taken(&self) -> &[u8]
        ensures { result.now ≡ self.now.taken }
    {
        self.taken.as_slice()
    }
}

impl Sink for MemorySink {
    ghost use Rattle.std.specs.Prelude.{◌-◌, ◌^◌, Some, length};
    ghost use Rattle.std.specs.Io.KnownBytes.{WriteAppends};
    ghost use Rattle.gr_outside.specs.Memory.{Writes, taken_by};
    ghost use Rattle.gr_outside.specs.Outside.{CountsFailure, TakesSome};

    ghost taken = { taken_by };

    // Want of memory counts as a fault of the device.
    fn write(&mut self, piece: &[u8]) -> Result<usize, Failed>
        requires piece { 0 < length piece.now }
        requires countable { self.old.faults < 2 ^ 64 - 1 }
        ensures some { TakesSome piece.now result }
        ensures bytes { WriteAppends (Some self.old.taken) (Some self.new.taken) result piece.now }
        ensures faults { CountsFailure self.old.faults self.new.faults result }
        ensures exactly { Writes self.old self.new piece.now result }
    {
        let fails = is_failing(self.failing.as_slice(), self.call);
        self.call = self.call.saturating_add(1);
        let taken = piece.len().min(self.largest);
        if fails || self.taken.extend_from_slice(&piece[..taken]).is_err() {
            self.faults += 1;
            return Err(Failed {
                faults: self.faults,
            });
        }
        Ok(taken)
    }
}

#[cfg(test)]
mod tests;
