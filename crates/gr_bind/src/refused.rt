// Refusals at a place.
ghost use Rattle.std.specs.Prelude.{◌≡◌, Err};
ghost use Rattle.gr_bind.specs.Columns.{fault_at};
ghost use Rattle.gr_bind.specs.Inside.Told.{Tells};

use gr_base::{Bytes, Failure, Fault, FaultKind};
use std::alloc::Global;

// The refusal of what stands at a byte place of a text.
pub(crate) fn refused<T>(alloc: Global, kind: FaultKind, at: u64) -> Result<T, Failure<Fault>>
    ensures { Tells result (Err (fault_at kind at)) }
{
    let name = Bytes::from_slice(alloc, b"")?;
    Err(Failure::Refused(Fault {
        kind,
        row: None,
        at: Some(at),
        name,
    }))
}
