// A call that was refused, or that found no memory.
use crate::{Fault, FaultKind, NoMemory};
use std::alloc::{AllocError, AllocFailed};
use thiserror::Error;

/// Why a call that may want memory has no value to give. `F` says what it was refused for. A `?` makes it of want of memory, and of a fault or its kind;
/// another refusal is put in by `.map_err(Failure::Refused)`.
#[derive(Clone, Copy, Debug, PartialEq, Eq, Drop, Error)]
pub enum Failure<F> {
    /// What was asked for is refused.
    #[error("refused")]
    Refused(F),
    /// No memory was found.
    #[error("no memory")]
    NoMemory,
}

impl<F> From<NoMemory> for Failure<F> {
    ghost use Rattle.std.specs.Prelude.{◌≡◌};
    ghost use Rattle.gr_base.specs.declared.failure.Failure.{Failure};

    ghost from_gives = { λ _ failure. failure ≡ Failure.NoMemory };

    fn from(_error: NoMemory) -> Failure<F> {
        Failure::NoMemory
    }
}

impl<F> From<AllocError> for Failure<F> {
    ghost use Rattle.std.specs.Prelude.{◌≡◌};
    ghost use Rattle.gr_base.specs.declared.failure.Failure.{Failure};

    ghost from_gives = { λ _ failure. failure ≡ Failure.NoMemory };

    fn from(_error: AllocError) -> Failure<F> {
        Failure::NoMemory
    }
}

impl<F, T: Drop> From<AllocFailed<T>> for Failure<F> {
    ghost use Rattle.std.specs.Prelude.{◌≡◌};
    ghost use Rattle.gr_base.specs.declared.failure.Failure.{Failure};

    ghost from_gives = { λ _ failure. failure ≡ Failure.NoMemory };

    fn from(_error: AllocFailed<T>) -> Failure<F> {
        Failure::NoMemory
    }
}

impl From<FaultKind> for Failure<FaultKind> {
    ghost use Rattle.std.specs.Prelude.{◌≡◌};
    ghost use Rattle.gr_base.specs.declared.failure.Failure.{Failure};

    ghost from_gives = { λ kind failure. failure ≡ Failure.Refused kind };

    fn from(kind: FaultKind) -> Failure<FaultKind> {
        Failure::Refused(kind)
    }
}

impl From<Fault> for Failure<Fault> {
    ghost use Rattle.std.specs.Prelude.{◌≡◌};
    ghost use Rattle.gr_base.specs.declared.failure.Failure.{Failure};

    ghost from_gives = { λ fault failure. failure ≡ Failure.Refused fault };

    fn from(fault: Fault) -> Failure<Fault> {
        Failure::Refused(fault)
    }
}
