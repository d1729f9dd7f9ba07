// Faults of a name, and of a place.
ghost use Rattle.std.specs.Prelude.{◌≡◌, IfOk, IsUtf8};
ghost use Rattle.gr_base.specs.Fault.{fault_named};
ghost use Rattle.gr_bind.specs.Columns.{fault_at};
ghost use Rattle.gr_select.specs.Inside.Read.{Tells};

use gr_base::{Bytes, Failure, Fault, FaultKind, NoMemory};
use std::alloc::Global;

/// A fault that is told by a name alone.
pub fn fault_named(alloc: Global, kind: FaultKind, name: &str) -> Result<Fault, NoMemory>
    ensures exact { IfOk result (λ fault. fault ≡ fault_named kind name.now) }
    ensures text { IfOk result (λ fault. IsUtf8 fault.name) }
{
    let name = Bytes::from_slice(alloc, name.as_bytes())?;
    Ok(Fault::named(kind, name))
}

// The refusal of what stands at a byte place of a text.
pub(crate) fn refused_at(alloc: Global, kind: FaultKind, at: u64) -> Failure<Fault>
    ensures { Tells result (fault_at kind at) }
{
    match Bytes::from_slice(alloc, b"") {
        Ok(name) => Failure::Refused(Fault {
            kind,
            row: None,
            at: Some(at),
            name,
        }),
        Err(NoMemory) => Failure::NoMemory,
    }
}
