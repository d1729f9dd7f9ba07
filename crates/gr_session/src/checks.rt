// Checks of parameters whose values are not all taken.
ghost use Rattle.std.specs.Prelude.{◌≡◌, IfOk, IfSome, IsUtf8, find, option_map};
ghost use Rattle.gr_cmdline.specs.Arguments.{AreTexts};
ghost use Rattle.gr_session.specs.Checks.{first_failed, is_other, never, only, text_of};

use gr_base::{Bytes, Fault, FaultKind, NoMemory};
use gr_cmdline::{Command, Param};
use gr_select::fault_named;
use std::alloc::Global;

// Whether a value is given that is not taken.
#[derive(Clone, Copy)]
pub(crate) struct Check {
    pub(crate) param: Param,
    pub(crate) fails: bool,
}

// A parameter that takes one value alone.
pub(crate) fn only(command: &Command, param: Param, taken: &str) -> Check
    ensures { result ≡ only command.now param taken.now }
{
    let fails = is_other(command.args.get(param), taken);
    Check { param, fails }
}

// A parameter that takes no value.
pub(crate) fn never(command: &Command, param: Param) -> Check
    ensures { result ≡ never command.now param }
{
    let fails = command.args.get(param).is_some();
    Check { param, fails }
}

// Whether something is given, and it is not this.
pub(crate) fn is_other(given: Option<&str>, taken: &str) -> bool
    ensures { result ≡ is_other taken.now (option_map (λ text. text.now) given.entry) }
{
    match given {
        Some(given) => given != taken,
        None => false,
    }
}

// The fault of the first check that fails.
pub(crate) fn first_failed(alloc: Global, checks: &[Check]) -> Result<Option<Fault>, NoMemory>
    ensures exact { IfOk result (λ fault. fault ≡ first_failed checks.now) }
    ensures text { IfOk result (λ fault. IfSome fault (λ fault. IsUtf8 fault.name)) }
{
    match failed_param(checks) {
        Some(param) => Ok(Some(fault_named(alloc, FaultKind::BadValue, param.name())?)),
        None => Ok(None),
    }
}

fn failed_param(checks: &[Check]) -> Option<Param>
    ensures { result ≡ option_map (λ check. check.param) (find (λ check. check.fails) checks.now) }
{
    let check = checks.iter().find(|check| check.fails)?;
    Some(check.param)
}

// The value of a parameter, empty where none is given.
pub(crate) fn text_of(command: &Command, param: Param) -> &str
    ensures { result.now ≡ text_of command.now param }
{
    match command.args.get(param) {
        Some(text) => text,
        None => "",
    }
}

// The same, with memory of its own.
pub(crate) fn word_of(alloc: Global, command: &Command, param: Param) -> Result<Bytes, NoMemory>
    ensures exact { IfOk result (λ word. word ≡ text_of command.now param) }
    ensures text { IfOk result IsUtf8 }
{
    Bytes::from_slice(alloc, text_of(command, param).as_bytes())
}
