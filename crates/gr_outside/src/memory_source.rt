// A source in memory, with the calls that are to fail.
ghost use Rattle.std.specs.Prelude.{◌≡◌, ◌<◌, ◌≤◌, min, drop, length, take};
ghost use Rattle.gr_outside.specs.Memory.{is_failing, reading_from};

use super::{Failed, Source};
use gr_base::{Bytes, ListOf, NoMemory};
use std::marker::Model;

/// Numbers of calls, from 0.
pub type Calls = ListOf<u64>;

/// Bytes in memory, given in pieces of at most `largest`.
#[derive(Drop)]
pub struct MemorySource {
    bytes: Bytes,
    at: usize,
    failing: Calls,
    call: u64,
    largest: usize,
    faults: u64,
}

impl Model for MemorySource {
    ghost use Rattle.std.specs.Prelude.{◌≤◌, ◌<◌, drop, length};
    ghost use Rattle.gr_outside.specs.Memory.{Reading};

    ghost Value = { Reading };

    ghost view = { λ s. record { left = drop s.at s.bytes; failing = s.failing; call = s.call; largest = s.largest; faults = s.faults } };

    ghost invariant = { λ s. (s.at ≤ length s.bytes) × (0 < s.largest) };
}

impl MemorySource {
    /// A source of these bytes. The calls of these numbers fail, and each other gives at most `largest` bytes.
    pub fn new(bytes: Bytes, failing: Calls, largest: usize) -> Result<MemorySource, NoMemory>
        requires { 0 < largest }
        ensures { result ≡ Ok (reading_from bytes failing largest) }
    {
        Ok(MemorySource {
            bytes,
            at: 0,
            failing,
            call: 0,
            largest,
            faults: 0,
        })
    }
}

impl Source for MemorySource {
    ghost use Rattle.std.specs.Prelude.{◌-◌, ◌^◌, Some};
    ghost use Rattle.std.specs.Io.{ReadsAtMost};
    ghost use Rattle.std.specs.Io.KnownBytes.{ReadConsumes};
    ghost use Rattle.gr_outside.specs.Memory.{after_read, read_answer, reaches_at_once, told_by};
    ghost use Rattle.gr_outside.specs.Outside.{CountsFailure, StaysWithin};

    ghost told = { told_by };

    fn read(&mut self, room: &mut [u8]) -> Result<usize, Failed>
        requires room { 0 < length room.old }
        requires countable { self.old.faults < 2 ^ 64 - 1 }
        ensures bound { ReadsAtMost result room.new }
        ensures bytes { ReadConsumes (Some self.old.left) (Some self.new.left) result room.new }
        ensures faults { CountsFailure self.old.faults self.new.faults result }
        ensures pairs { StaysWithin (told_by self.old) (told_by self.new) result }
        ensures answer { result ≡ read_answer self.old (length room.old) }
        ensures after { self.new ≡ after_read self.old (length room.old) }
    {
        let fails = is_failing(self.failing.as_slice(), self.call);
        self.call = self.call.saturating_add(1);
        if fails {
            self.faults += 1;
            return Err(Failed {
                faults: self.faults,
            });
        }
        let given = give(rest(self.bytes.as_slice(), self.at), self.largest, room);
        self.at += given;
        Ok(given)
    }

    ghost reaches_now = { reaches_at_once };
}

// The bytes from this place on.
fn rest(bytes: &[u8], at: usize) -> &[u8]
    requires { at ≤ length bytes.now }
    ensures { result.now ≡ drop at bytes.now }
{
    &bytes[at..]
}

// Moves as many bytes as the room, the largest piece and what is left allow.
fn give(left: &[u8], largest: usize, room: &mut [u8]) -> usize
    ensures amount { result ≡ min (length room.old) (min largest (length left.now)) }
    ensures moved { take result room.new ≡ take result left.now }
{
    let given = room.len().min(largest.min(left.len()));
    room[..given].copy_from_slice(&left[..given]);
    given
}

// Whether the call of this number is to fail.
pub(crate) fn is_failing(failing: &[u64], call: u64) -> bool
    ensures { result ≡ is_failing failing.now call }
{
    failing.iter().any(|number| *number == call)
}

#[cfg(test)]
mod tests;
