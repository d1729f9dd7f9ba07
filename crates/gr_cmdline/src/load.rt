// A load that waits for its data on the lines that follow.
ghost use Rattle.std.specs.Prelude.{◌≡◌, ◌||◌, ◌++◌, ◌∷◌, [], IfOk, None, OnErr, OnOk, Some, false, if◌then◌else◌, length, nat_lt, string_bytes, true};
ghost use Rattle.gr_cmdline.specs.Arguments.{is_filled, is_given};
ghost use Rattle.gr_base.specs.Fault.{fault_named};
ghost use Rattle.gr_cmdline.specs.Commands.{IsItem, outcome_in_load};
ghost use Rattle.gr_cmdline.specs.Line.{trimmed};
ghost use Rattle.gr_cmdline.specs.LoadData.{with_data, with_line};
ghost use Rattle.gr_cmdline.specs.declared.command.Item.TheVariants.{Bad, Command as Accepted};
ghost use Rattle.gr_cmdline.specs.declared.param.Param.TheVariants.{Values};

use super::{Command, Item, Param};
use crate::brackets::Brackets;
use crate::line::trimmed;
use gr_base::{Bytes, Fault, FaultKind, NoMemory};
use std::alloc::Global;
use std::marker::Model;

/// A load without values, and its data so far.
#[derive(Drop)]
pub(crate) struct Load {
    command: Command,
    text: Vec<u8>,
    too_long: bool,
    // The brackets that are open behind the text; each byte is counted once.
    count: Brackets,
    // The empty name of a fault, so that the last line takes no memory.
    unnamed: Bytes,
}

impl Model for Load {
    ghost use Rattle.std.specs.Prelude.{[]};
    ghost use Rattle.gr_cmdline.specs.Inside.Brackets.{IsCounted};
    ghost use Rattle.gr_cmdline.specs.LoadData.{Waiting};

    ghost Value = { Waiting };

    ghost view = { λ load. record { command = load.command; text = load.text.items; too_long = load.too_long } };

    ghost invariant = { λ load. IsCounted load.command load.text.items load.count load.unnamed };
}

impl Load {
    ghost use Rattle.gr_cmdline.specs.LoadData.{is_whole, loaded, with_line};

    /// A load of which no line of data has come.
    pub(crate) fn new(alloc: Global, command: Command) -> Result<Load, NoMemory>
        requires { is_given command.args.given Values ≡ false }
        ensures { IfOk result (λ load. load ≡ record { command = command; text = []; too_long = false }) }
    {
        let unnamed = Bytes::from_slice(alloc, b"")?;
        Ok(Load {
            command,
            text: Vec::new(alloc),
            too_long: false,
            count: Brackets::new(),
            unnamed,
        })
    }

    /// Takes a line among the data, and says whether they are whole with it; a line of blanks is skipped.
    pub(crate) fn take_line(&mut self, limit: u64, line: &[u8]) -> Result<bool, NoMemory>
        ensures ok { IfOk result (λ whole. outcome_in_load limit self.old line.now (trimmed line.now)
            ≡ (if whole then record { item = Some (loaded self.new true); load = None } else record { item = None; load = Some self.new })) }
        ensures filled { IfOk result (λ whole. whole ≡ true → is_filled self.new.text ≡ true) }
        ensures err { OnErr result (self.new ≡ self.old) }
    {
        let text = trimmed(line);
        if text.is_empty() {
            return Ok(false);
        }
        self.push_line(limit, line, text)?;
        Ok(self.is_whole())
    }

    /// Takes a line of data, of which this is without the blanks at its ends.
    fn push_line(&mut self, limit: u64, line: &[u8], text: &[u8]) -> Result<(), NoMemory>
        ensures ok { OnOk result (self.new ≡ record { command = self.old.command; text = with_line self.old.text text.now; too_long = self.old.too_long || nat_lt limit (length line.now) }) }
        ensures err { OnErr result (self.new ≡ self.old) }
    {
        let from = self.text.len();
        push_line(&mut self.text, text)?;
        self.count = self.count.after(&self.text[from..]);
        self.too_long = self.too_long || line.len() as u64 > limit;
        Ok(())
    }

    /// Whether the data so far are whole.
    fn is_whole(&self) -> bool
        ensures { result ≡ is_whole self.now.text }
    {
        match self.text.first() {
            Some(first) => *first != b'[' || self.count.is_closed(),
            None => false,
        }
    }

    /// What the load gives once its data are taken, whole or not.
    pub(crate) fn into_item(self, whole: bool) -> Item
        requires { whole ≡ true → is_filled self.text ≡ true }
        ensures exact { result ≡ loaded self whole }
        ensures item { IsItem result }
    {
        if self.too_long {
            return bad(FaultKind::LineTooLong, self.unnamed);
        }
        match String::from_utf8(self.text) {
            Ok(text) => {
                if whole {
                    asked(self.command, text)
                } else {
                    bad(FaultKind::UnfinishedLoad, self.unnamed)
                }
            }
            Err(_) => bad(FaultKind::NotText, self.unnamed),
        }
    }
}

/// Puts a line behind data so far.
fn push_line(text: &mut Vec<u8>, line: &[u8]) -> Result<(), NoMemory>
    ensures ok { OnOk result (text.new.items ≡ with_line text.old.items line.now) }
    ensures err { OnErr result (text.new.items ≡ text.old.items) }
{
    if text.is_empty() {
        text.extend_from_slice(line)?;
        return Ok(());
    }
    text.reserve(line.len() + 1)?;
    text.push(b'\n')?;
    text.extend_from_slice(line)?;
    Ok(())
}

/// A load with its data.
fn asked(command: Command, text: String) -> Item
    requires none { is_given command.args.given Values ≡ false }
    requires filled { is_filled (string_bytes text) ≡ true }
    ensures exact { result ≡ Accepted (with_data command (string_bytes text)) }
    ensures item { IsItem result }
{
    let args = command.args.with_data(text);
    let _given = args.is_given(Param::Values);
    Item::Command(Command {
        verb: command.verb,
        args,
    })
}

/// A fault without a name.
fn bad(kind: FaultKind, unnamed: Bytes) -> Item
    requires { unnamed ≡ [] }
    ensures exact { result ≡ Bad (fault_named kind []) }
    ensures item { IsItem result }
{
    Item::Bad(Fault::named(kind, unnamed))
}
