// The parameters that take one value or none, whatever the command.
ghost use Rattle.std.specs.Prelude.{◌≡◌, ◌&&◌, ◌||◌, IfOk, IfSome, IsUtf8};
ghost use Rattle.gr_cmdline.specs.Arguments.{is_given};
ghost use Rattle.gr_cmdline.specs.declared.param.Param.TheVariants.{Filter, Id, Key};
ghost use Rattle.gr_session.specs.Fixed.{filter_check, fixed_checks, fixed_fault, id_check, is_delete, suffix_check};

use crate::checks::{Check, first_failed, is_other, never, only};
use gr_base::{Fault, NoMemory};
use gr_cmdline::{Command, Param, Verb};
use std::alloc::Global;

// The fault of the first fixed parameter that is wrong.
pub(crate) fn fixed_fault(alloc: Global, command: &Command) -> Result<Option<Fault>, NoMemory>
    ensures exact { IfOk result (λ fault. fault ≡ fixed_fault command.now) }
    ensures text { IfOk result (λ fault. IfSome fault (λ fault. IsUtf8 fault.name)) }
{
    first_failed(alloc, &fixed_checks(command))
}

fn fixed_checks(command: &Command) -> [Check; 10]
    ensures { result ≡ fixed_checks command.now }
{
    [
        only(command, Param::OutputType, "json"),
        suffix_check(command),
        only(command, Param::CommandVersion, "1"),
        never(command, Param::ValueType),
        never(command, Param::Normalizer),
        never(command, Param::TokenFilters),
        never(command, Param::Ifexists),
        only(command, Param::InputType, "json"),
        id_check(command),
        filter_check(command),
    ]
}

// The suffix of a path says which output is wanted.
fn suffix_check(command: &Command) -> Check
    ensures { result ≡ suffix_check command.now }
{
    Check {
        param: Param::OutputType,
        fails: is_other(command.args.suffix(), "json"),
    }
}

// No delete takes both a key and an id.
fn id_check(command: &Command) -> Check
    ensures { result ≡ id_check command.now }
{
    Check {
        param: Param::Id,
        fails: is_delete(command.verb) && has_key_and_id(command),
    }
}

// No delete takes a filter beside a key or an id.
fn filter_check(command: &Command) -> Check
    ensures { result ≡ filter_check command.now }
{
    Check {
        param: Param::Filter,
        fails: is_delete(command.verb) && has_filter_and_name(command),
    }
}

fn is_delete(verb: Verb) -> bool
    ensures { result ≡ is_delete verb }
{
    matches!(verb, Verb::Delete)
}

fn has_key_and_id(command: &Command) -> bool
    ensures { result ≡ (is_given command.now.args.given Key && is_given command.now.args.given Id) }
{
    is_given(command, Param::Key) && is_given(command, Param::Id)
}

fn has_filter_and_name(command: &Command) -> bool
    ensures { result ≡ (is_given command.now.args.given Filter && (is_given command.now.args.given Key || is_given command.now.args.given Id)) }
{
    is_given(command, Param::Filter)
        && (is_given(command, Param::Key) || is_given(command, Param::Id))
}

fn is_given(command: &Command, param: Param) -> bool
    ensures { result ≡ is_given command.now.args.given param }
{
    command.args.get(param).is_some()
}
