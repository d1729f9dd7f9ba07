// What each line gives, behind a load that waits for its data or not.
ghost use Rattle.std.specs.Prelude.{◌≡◌, IfOk, IfSome, None, OnErr, option_map, true};
ghost use Rattle.gr_cmdline.specs.Arguments.{is_filled};
ghost use Rattle.gr_cmdline.specs.Commands.{IsItem, outcome_of, outcome_of_command, outcome_of_line};
ghost use Rattle.gr_cmdline.specs.Line.{line_of};
ghost use Rattle.gr_cmdline.specs.LoadData.{is_load, loaded};

use super::{Command, Item, Param, Verb};
use crate::line::line_of;
use crate::load::Load;
use gr_base::NoMemory;
use std::alloc::Global;

/// Takes a line; where no memory is found nothing is taken.
pub(crate) fn take_line(
    alloc: Global,
    load: &mut Option<Load>,
    limit: u64,
    line: &[u8],
) -> Result<Option<Item>, NoMemory>
    ensures ok { IfOk result (λ item. record { item = item; load = load.new } ≡ outcome_of limit load.old line.now) }
    ensures err { OnErr result (load.new ≡ load.old) }
    ensures item { IfOk result (λ item. IfSome item IsItem) }
{
    let Some(waiting) = load else {
        return take_first_line(alloc, load, limit, line);
    };
    if !waiting.take_line(limit, line)? {
        return Ok(None);
    }
    Ok(take_whole(load))
}

/// Takes a load whose data are whole.
fn take_whole(load: &mut Option<Load>) -> Option<Item>
    requires { IfSome load.old (λ waiting. is_filled waiting.text ≡ true) }
    ensures exact { result ≡ option_map (λ waiting. loaded waiting true) load.old }
    ensures taken { load.new ≡ None }
    ensures item { IfSome result IsItem }
{
    match load.take() {
        Some(waiting) => Some(waiting.into_item(true)),
        None => None,
    }
}

/// Takes a line where no load waits.
fn take_first_line(
    alloc: Global,
    load: &mut Option<Load>,
    limit: u64,
    line: &[u8],
) -> Result<Option<Item>, NoMemory>
    requires { load.old ≡ None }
    ensures ok { IfOk result (λ item. record { item = item; load = load.new } ≡ outcome_of_line (line_of limit line.now)) }
    ensures err { OnErr result (load.new ≡ None) }
    ensures item { IfOk result (λ item. IfSome item IsItem) }
{
    match line_of(alloc, limit, line)? {
        Some(Ok(command)) => take_command(alloc, load, command),
        Some(Err(refusal)) => Ok(Some(Item::Bad(refusal.into_fault(alloc)?))),
        None => Ok(None),
    }
}

/// Takes a command: a load without values waits for its data.
fn take_command(
    alloc: Global,
    load: &mut Option<Load>,
    command: Command,
) -> Result<Option<Item>, NoMemory>
    requires { load.old ≡ None }
    ensures ok { IfOk result (λ item. record { item = item; load = load.new } ≡ outcome_of_command command) }
    ensures err { OnErr result (load.new ≡ None) }
    ensures item { IfOk result (λ item. IfSome item IsItem) }
{
    let given = command.args.is_given(Param::Values);
    if is_load(command.verb) && !given {
        *load = Some(Load::new(alloc, command)?);
        return Ok(None);
    }
    Ok(Some(Item::Command(command)))
}

/// Whether a command is a load.
fn is_load(verb: Verb) -> bool
    ensures { result ≡ is_load verb }
{
    matches!(verb, Verb::Load)
}
