// What a text is refused for.
ghost use Rattle.std.specs.Prelude.{◌≡◌};
ghost use Rattle.gr_text.specs.Fault.{refused_for};

use gr_base::{Failure, FaultKind};
use thiserror::Error;

/// What a text is refused for, and where.
#[derive(Clone, Copy, Debug, PartialEq, Eq, Drop, Error)]
#[error("{kind:?} at {at}")]
pub struct TextRefusal {
    /// What for.
    pub kind: FaultKind,
    /// The byte place, counted from 0.
    pub at: u64,
}

/// Why a text gave no tree.
pub type TextFault = Failure<TextRefusal>;

/// The fault of a text that is refused for this at this place.
pub(crate) fn refused(kind: FaultKind, at: u64) -> TextFault
    ensures { result ≡ refused_for kind at }
{
    Failure::Refused(TextRefusal { kind, at })
}
