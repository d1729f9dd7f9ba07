// A part of a condition, as operators take it: what it is taken for, or its refusal at its place.
ghost use Rattle.std.specs.Prelude.{◌≡◌};
ghost use Rattle.gr_bind.specs.Inside.Placed.{IsPart};
ghost use Rattle.gr_bind.specs.Inside.Told.{Tells};
ghost use Rattle.gr_bind.specs.Kinds.{is_compared, is_same_kind};
ghost use Rattle.gr_bind.specs.Typing.{Part, condition, sought_path, taken, term_where, value_where};

use crate::operand::{Operand, ValueKind};
use crate::taken;
use gr_base::{Cmp, Failure, Fault};
use gr_expr::{Expr, Seek, Term};
use gr_values::Path;
use std::alloc::Global;

/// A part of a condition: what it is before its operator takes it, or its first fault.
#[derive(Drop)]
pub(crate) struct TypedPart {
    /// Its place.
    pub(crate) at: u64,
    /// What it is, or its first fault.
    pub(crate) operand: Result<Operand, Failure<Fault>>,
}

impl TypedPart {
    // It as a condition.
    pub(crate) fn condition(self, alloc: Global) -> Result<Expr, Failure<Fault>>
        ensures { (part : Part) → IsPart self part → Tells result (condition part) }
    {
        let TypedPart { at, operand } = self;
        taken::condition(alloc, operand?, at)
    }

    // It as a value of this kind.
    pub(crate) fn of_kind(self, alloc: Global, kind: ValueKind) -> Result<Term, Failure<Fault>>
        ensures { (part : Part) → IsPart self part → Tells result (taken (term_where (is_same_kind kind)) part) }
    {
        let TypedPart { at, operand } = self;
        taken::of_kind(alloc, operand?, kind, at)
    }

    // It as a value that a comparison takes, with its kind.
    pub(crate) fn compared(
        self,
        alloc: Global,
        cmp: Cmp,
    ) -> Result<(ValueKind, Term), Failure<Fault>>
        ensures { (part : Part) → IsPart self part → Tells result (taken (value_where (is_compared cmp)) part) }
    {
        let TypedPart { at, operand } = self;
        taken::compared(alloc, operand?, cmp, at)
    }

    // It as a field that a search takes.
    pub(crate) fn sought(self, alloc: Global, seek: Seek) -> Result<Path, Failure<Fault>>
        ensures { (part : Part) → IsPart self part → Tells result (taken (sought_path seek) part) }
    {
        let TypedPart { at, operand } = self;
        taken::sought(alloc, operand?, seek, at)
    }
}
