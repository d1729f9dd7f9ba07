// Which parameters a command misses.
ghost use Rattle.std.specs.Prelude.{◌≡◌, find, not};
ghost use Rattle.gr_cmdline.specs.Arguments.{is_given};
ghost use Rattle.gr_cmdline.specs.Binding.{complete, missing, missing_choice};

use super::{Args, Command, Param, Verb};
use crate::refused::Refused;
use crate::text::Text;
use gr_base::FaultKind;

/// The command, unless a parameter is missing.
pub(crate) fn complete<'a>(verb: Verb, args: Args) -> Result<Command, Refused<'a>>
    ensures { result ≡ complete verb args (missing verb args.given) }
{
    match missing(verb, &args) {
        Some(param) => Err(Refused::new(FaultKind::MissingArgument, Text::lent(param.name()))),
        None => Ok(Command { verb, args }),
    }
}

/// The first parameter that is missing.
fn missing(verb: Verb, args: &Args) -> Option<Param>
    ensures { result ≡ missing verb args.now.given }
{
    match first_missing(verb.required(), args) {
        Some(param) => Some(param),
        None => missing_choice(verb, args),
    }
}

/// The first of these parameters that is not given.
fn first_missing(required: &[Param], args: &Args) -> Option<Param>
    ensures { result ≡ find (λ param. not (is_given args.now.given param)) required.now }
{
    required
        .iter()
        .copied()
        .find(|param| !args.is_given(*param))
}

/// What a delete is missing where nothing says which record.
fn missing_choice(verb: Verb, args: &Args) -> Option<Param>
    ensures { result ≡ missing_choice verb args.now.given }
{
    match verb {
        Verb::Delete => {
            if args.is_given(Param::Key)
                || args.is_given(Param::Id)
                || args.is_given(Param::Filter)
            {
                None
            } else {
                Some(Param::Key)
            }
        }
        _ => None,
    }
}
