// The traits of the outside, and what their calls mean.
ghost use Rattle.std.specs.Prelude.{◌-◌, ◌^◌, ◌<◌, length, IfOk};
ghost use Rattle.std.specs.Io.{ReadsAtMost};
ghost use Rattle.std.specs.Io.KnownBytes.{ReadConsumes, WriteAppends};
ghost use Rattle.gr_outside.specs.Outside.{AreSameFiles, CountsFailure, CountsOpen, FilesTold, IsAsTold, StaysWithin, Taken, TakesSome, Told, as_opened};

use super::{Failed, OpenFault};
use std::alloc::Global;

/// Where a session's bytes come from.
pub trait Source {
    /// The bytes that are left, how many reads have failed, and what can be reached from here. The count never falls.
    ghost told: { Self → Told };

    /// Moves bytes to the front of the room and says how many; 0 is the end of the input.
    fn read(&mut self, room: &mut [u8]) -> Result<usize, Failed>
        requires room { 0 < length room.old }
        requires countable { (told self.old).faults < 2 ^ 64 - 1 }
        ensures bound { ReadsAtMost result room.new }
        ensures bytes { ReadConsumes (told self.old).left (told self.new).left result room.new }
        ensures faults { CountsFailure (told self.old).faults (told self.new).faults result }
        ensures pairs { StaysWithin (told self.old) (told self.new) result };

    ghost reaches_now: { (source : Self) → (told source).reaches 0 (told source).faults };
}

/// Where a run's replies go.
pub trait Sink {
    /// The bytes taken so far, and how many writes have failed. The count never falls.
    ghost taken: { Self → Taken };

    /// Takes the first bytes of the piece and says how many; a device that takes none has failed.
    fn write(&mut self, piece: &[u8]) -> Result<usize, Failed>
        requires piece { 0 < length piece.now }
        requires countable { (taken self.old).faults < 2 ^ 64 - 1 }
        ensures some { TakesSome piece.now result }
        ensures bytes { WriteAppends (taken self.old).bytes (taken self.new).bytes result piece.now }
        ensures faults { CountsFailure (taken self.old).faults (taken self.new).faults result };
}

/// Files by name.
pub trait Files {
    /// What an opened file is.
    type File: Source + Drop + Send;

    /// What is told of each name, and how many opens have failed. The count never falls.
    ghost told: { Self → FilesTold };

    /// Opens the file of a name, from its first byte.
    fn open(&mut self, alloc: Global, name: &str) -> Result<Self::File, OpenFault>
        requires { (told self.old).faults < 2 ^ 64 - 1 }
        ensures same { AreSameFiles (told self.old) (told self.new) }
        ensures faults { CountsOpen (told self.old) (told self.new) name.now result }
        ensures opened { IfOk result (λ file. IsAsTold (as_opened ((told self.old).named name.now)) (Self.File.told file)) };
}
