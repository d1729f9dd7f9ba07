// The items of texts that are fed whole and in pieces.
ghost use Rattle.std.specs.Prelude.{◌≡◌, ◌<◌};

use super::{Command, Item, Next, Param, Reader};
use gr_base::{Limits, NoMemory};
use std::alloc::Global;
use std::test::Fail;

mod arguments;
mod lines;
mod loads;
mod paths;

/// A text, and what is written down of its items.
struct Case {
    text: &'static [u8],
    want: &'static str,
}

/// The longest line that is taken here.
const LIMIT: u64 = 60;

/// Writes down a parameter and its value, where it is given.
fn push_value(items: &mut String, command: &Command, param: Param) -> Result<(), NoMemory> {
    if let Some(value) = command.args.get(param) {
        items.push_str(" ")?;
        items.push_str(param.name())?;
        items.push_str("=")?;
        items.push_str(value)?;
    }
    Ok(())
}

/// Writes down these parameters of a command.
fn push_values(items: &mut String, command: &Command, params: &[Param]) -> Result<(), NoMemory> {
    for param in params {
        push_value(items, command, *param)?;
    }
    Ok(())
}

/// Writes down a command: its suffix, its name and what is given to it.
fn push_command(items: &mut String, command: &Command) -> Result<(), NoMemory> {
    if let Some(suffix) = command.args.suffix() {
        items.push_str(".")?;
        items.push_str(suffix)?;
        items.push_str(" ")?;
    }
    items.push_str(command.verb.name())?;
    push_values(items, command, command.verb.order())?;
    push_values(items, command, command.verb.by_name())?;
    items.push_str("\n")?;
    Ok(())
}

/// Writes down each item that the reader gives now.
fn push_items(items: &mut String, alloc: Global, reader: &mut Reader) -> Result<(), NoMemory>
    ensures { reader.new.ended ≡ reader.old.ended }
{
    'items: loop {
        match reader.next_command(alloc) {
            Next::Item(Item::Command(command)) => push_command(items, &command)?,
            Next::Item(Item::Bad(fault)) => {
                items.push_str(fault.kind.name())?;
                items.push_str(" ")?;
                match str::from_utf8(fault.name.as_slice()) {
                    Ok(name) => items.push_str(name)?,
                    Err(_) => return Err(NoMemory),
                }
                items.push_str("\n")?;
            }
            Next::NeedMore | Next::End => return Ok(()),
            Next::NoMemory => return Err(NoMemory),
        }
    }
}

/// The items of a text that is fed in pieces of this size.
fn items(alloc: Global, text: &[u8], size: usize) -> Result<String, NoMemory>
    requires { 0 < size }
{
    let mut items = String::new(alloc);
    let mut reader = Reader::new(
        alloc,
        Limits {
            records: 1,
            journal: 1,
            source: 1,
            line: LIMIT,
        },
    );
    for piece in text.chunks(size) {
        reader.feed(piece)?;
        push_items(&mut items, alloc, &mut reader)?;
    }
    reader.end();
    push_items(&mut items, alloc, &mut reader)?;
    Ok(items)
}

/// Whether a text has these items when it is fed whole, and in pieces of 1, 2, 3, 7 and 64 bytes.
fn gives(alloc: Global, case: &Case) -> Result<bool, NoMemory> {
    Ok(
        items(alloc, case.text, 65536)?.as_str() == case.want
            && items(alloc, case.text, 1)?.as_str() == case.want
            && items(alloc, case.text, 2)?.as_str() == case.want
            && items(alloc, case.text, 3)?.as_str() == case.want
            && items(alloc, case.text, 7)?.as_str() == case.want
            && items(alloc, case.text, 64)?.as_str() == case.want,
    )
}

/// The place of the first case that gives something else.
fn first_wrong(alloc: Global, cases: &[Case]) -> Result<Option<usize>, NoMemory> {
    for (i, case) in cases.iter().enumerate() {
        if !gives(alloc, case)? {
            return Ok(Some(i));
        }
    }
    Ok(None)
}
