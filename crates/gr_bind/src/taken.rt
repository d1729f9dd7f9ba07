// Operands as their operators take them, or refused at their places.
ghost use Rattle.std.specs.Prelude.{◌≡◌};
ghost use Rattle.std.specs.Option.{ok_or};
ghost use Rattle.gr_base.specs.declared.fault.FaultKind.TheVariants.{TypeMismatch};
ghost use Rattle.gr_bind.specs.Columns.{fault_at};
ghost use Rattle.gr_bind.specs.Inside.Told.{Tells};
ghost use Rattle.gr_bind.specs.Kinds.{condition_of, is_compared, is_same_kind};
ghost use Rattle.gr_bind.specs.Typing.{sought_path, term_where, value_where};

use crate::kinds::{is_compared, is_sought};
use crate::operand::{Operand, ValueKind};
use crate::refused::refused;
use gr_base::{Cmp, Failure, Fault, FaultKind};
use gr_expr::{Expr, Seek, Term};
use gr_values::Path;
use std::alloc::Global;

// A condition.
pub(crate) fn condition(alloc: Global, operand: Operand, at: u64) -> Result<Expr, Failure<Fault>>
    ensures { Tells result (ok_or (condition_of operand) (fault_at TypeMismatch at)) }
{
    match operand.into_condition() {
        Some(condition) => Ok(condition),
        None => refused(alloc, FaultKind::TypeMismatch, at),
    }
}

// A value of this kind.
pub(crate) fn of_kind(
    alloc: Global,
    operand: Operand,
    kind: ValueKind,
    at: u64,
) -> Result<Term, Failure<Fault>>
    ensures { Tells result (ok_or (term_where (is_same_kind kind) operand) (fault_at TypeMismatch at)) }
{
    if kind.is(operand.kind()) {
        Ok(operand.into_term(alloc)?)
    } else {
        refused(alloc, FaultKind::TypeMismatch, at)
    }
}

// A value that a comparison takes, with its kind.
pub(crate) fn compared(
    alloc: Global,
    operand: Operand,
    cmp: Cmp,
    at: u64,
) -> Result<(ValueKind, Term), Failure<Fault>>
    ensures { Tells result (ok_or (value_where (is_compared cmp) operand) (fault_at TypeMismatch at)) }
{
    let kind = operand.kind();
    if is_compared(cmp, kind) {
        Ok((kind, operand.into_term(alloc)?))
    } else {
        refused(alloc, FaultKind::TypeMismatch, at)
    }
}

// A field that a search takes.
pub(crate) fn sought(
    alloc: Global,
    operand: Operand,
    seek: Seek,
    at: u64,
) -> Result<Path, Failure<Fault>>
    ensures { Tells result (ok_or (sought_path seek operand) (fault_at TypeMismatch at)) }
{
    match operand.into_path() {
        Some(path) if is_sought(seek, &path) => Ok(path),
        _ => refused(alloc, FaultKind::TypeMismatch, at),
    }
}
