// Why a line is refused, before it is told as a fault.
ghost use Rattle.std.specs.Prelude.{◌≡◌, IfOk, [], IsUtf8};
ghost use Rattle.gr_base.specs.Fault.{fault_named};
ghost use Rattle.gr_cmdline.specs.Request.{bad_line};
ghost use Rattle.gr_cmdline.specs.Binding.{refused};

use crate::text::Text;
use gr_base::{Fault, FaultKind, NoMemory};
use std::alloc::Global;

/// What is wrong with a line, and the name or the text that is wrong, or an empty one.
#[derive(Drop)]
pub(crate) struct Refused<'a> {
    pub(crate) kind: FaultKind,
    pub(crate) name: Text<'a>,
}

impl<'a> Refused<'a> {
    /// A refusal by a kind and the name or the text that is wrong.
    pub(crate) fn new(kind: FaultKind, name: Text<'a>) -> Refused<'a>
        ensures { result ≡ refused kind name.entry }
    {
        Refused { kind, name }
    }

    /// A refusal by a kind alone.
    pub(crate) fn unnamed(kind: FaultKind) -> Refused<'a>
        ensures { result ≡ refused kind [] }
    {
        Refused {
            kind,
            name: Text::new(),
        }
    }

    /// The words of a line cannot be read.
    pub(crate) fn bad_line() -> Refused<'a>
        ensures { result ≡ bad_line }
    {
        Refused::unnamed(FaultKind::BadLine)
    }

    /// The fault that is told.
    pub(crate) fn into_fault(self, alloc: Global) -> Result<Fault, NoMemory>
        ensures exact { IfOk result (λ fault. fault ≡ fault_named self.entry.kind self.entry.name) }
        ensures utf8 { IfOk result (λ fault. IsUtf8 fault.name) }
    {
        Ok(Fault::named(self.kind, self.name.into_bytes(alloc)?))
    }
}
