// Why load data are refused.
ghost use Rattle.std.specs.Prelude.{◌≡◌, Err, IfOk, IsUtf8, Result};
ghost use Rattle.gr_base.specs.Failure.{Answers};
ghost use Rattle.gr_base.specs.Fault.{fault_named};
ghost use Rattle.gr_base.specs.declared.fault.FaultKind.{FaultKind};
ghost use Rattle.gr_rows.specs.Inside.Told.{Tells};
ghost use Rattle.gr_rows.specs.Members.{in_member, row_fault};

use gr_base::{Bytes, Failure, Fault, FaultKind, NoMemory};
use gr_values::ReadFault;
use std::alloc::Global;

/// The refusal of all load data, which a name tells that may be empty.
pub(crate) fn refused<T>(alloc: Global, kind: FaultKind, name: &str) -> Result<T, Failure<Fault>>
    ensures { Tells result (Err (fault_named kind name.now)) }
{
    let name = text_of(alloc, name)?;
    Err(Failure::Refused(Fault::named(kind, name)))
}

/// The refusal of a row, counted from 1, for the member of this name or for none.
pub(crate) fn row_refused<T>(
    alloc: Global,
    kind: FaultKind,
    row: u64,
    name: &str,
) -> Result<T, Failure<Fault>>
    ensures { Tells result (Err (row_fault kind row name.now)) }
{
    let name = text_of(alloc, name)?;
    Err(Failure::Refused(Fault {
        kind,
        row: Some(row),
        at: None,
        name,
    }))
}

/// What was read of a member of a row, or its fault with the row and the member's name.
pub(crate) fn in_member<T>(
    alloc: Global,
    row: u64,
    name: &str,
    read: Result<T, ReadFault>,
) -> Result<T, Failure<Fault>>
    ensures told { (meant : Result T FaultKind) → Answers read meant → Tells result (in_member row name.now meant) }
    ensures same { IfOk result (λ value. read ≡ Ok value) }
{
    match read {
        Ok(value) => Ok(value),
        Err(Failure::Refused(kind)) => row_refused(alloc, kind, row, name),
        Err(Failure::NoMemory) => Err(Failure::NoMemory),
    }
}

// A copy of a text.
fn text_of(alloc: Global, text: &str) -> Result<Bytes, NoMemory>
    ensures exact { IfOk result (λ copy. copy ≡ text.now) }
    ensures utf8 { IfOk result IsUtf8 }
{
    Bytes::from_string(alloc, String::from_str(alloc, text)?)
}
