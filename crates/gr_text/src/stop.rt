// Why a step of a reader did not go on.
ghost use Rattle.std.specs.Prelude.{◌≡◌};
ghost use Rattle.gr_text.specs.Inside.Reading.{fault_of};

use crate::fault::{TextFault, refused};
use gr_base::{Failure, FaultKind, NoMemory};
use std::alloc::{AllocError, AllocFailed};

/// Why a step did not go on.
#[derive(Clone, Copy, Debug, PartialEq, Eq)]
pub enum Stop {
    /// With this token more levels are open than a text may have.
    Deep,
    /// No text goes on with this token.
    Wrong,
    /// No memory was found.
    NoMemory,
}

impl Stop {
    /// The fault of a text that stops here, where a text that is not taken is otherwise refused for this.
    pub(crate) fn fault(self, otherwise: FaultKind, at: u64) -> TextFault
        ensures { result ≡ fault_of otherwise self at }
    {
        match self {
            Stop::Deep => refused(FaultKind::TooDeep, at),
            Stop::Wrong => refused(otherwise, at),
            Stop::NoMemory => Failure::NoMemory,
        }
    }
}

impl From<NoMemory> for Stop {
    ghost use Rattle.std.specs.Prelude.{◌≡◌};
    ghost use Rattle.gr_text.specs.declared.stop.Stop.TheVariants.{NoMemory as no_memory};

    ghost from_gives = { λ _ stop. stop ≡ no_memory };

    fn from(_error: NoMemory) -> Stop {
        Stop::NoMemory
    }
}

impl From<AllocError> for Stop {
    ghost use Rattle.std.specs.Prelude.{◌≡◌};
    ghost use Rattle.gr_text.specs.declared.stop.Stop.TheVariants.{NoMemory as no_memory};

    ghost from_gives = { λ _ stop. stop ≡ no_memory };

    fn from(_error: AllocError) -> Stop {
        Stop::NoMemory
    }
}

impl<T: Drop> From<AllocFailed<T>> for Stop {
    ghost use Rattle.std.specs.Prelude.{◌≡◌};
    ghost use Rattle.gr_text.specs.declared.stop.Stop.TheVariants.{NoMemory as no_memory};

    ghost from_gives = { λ _ stop. stop ≡ no_memory };

    fn from(_error: AllocFailed<T>) -> Stop {
        Stop::NoMemory
    }
}
