// What one line asks for.
ghost use Rattle.std.specs.Prelude.{◌≡◌, IfOk, MatchOption, false, true};
ghost use Rattle.std.specs.Str.{is_utf8};
ghost use Rattle.gr_cmdline.specs.Line.{command_of_line, from_first, is_skipped, line_of, trimmed, up_to_last, without_return};

use super::Command;
use crate::refused::Refused;
use crate::request::command_asked;
use gr_base::{FaultKind, NoMemory, is_blank};
use std::alloc::Global;

/// What a line asks for, where it asks for something.
pub(crate) fn line_of<'a>(
    alloc: Global,
    limit: u64,
    line: &'a [u8],
) -> Result<Option<Result<Command, Refused<'a>>>, NoMemory>
    ensures { IfOk result (λ asked. asked ≡ line_of limit line.now) }
{
    let text = trimmed(line);
    if is_skipped(text) {
        return Ok(None);
    }
    Ok(Some(command_of_line(alloc, limit, line, text)?))
}

/// The command of a line that is not skipped.
fn command_of_line<'a>(
    alloc: Global,
    limit: u64,
    line: &[u8],
    text: &'a [u8],
) -> Result<Result<Command, Refused<'a>>, NoMemory>
    ensures { IfOk result (λ command. command ≡ command_of_line limit line.now text.now) }
{
    if line.len() as u64 > limit {
        return Ok(Err(Refused::unnamed(FaultKind::LineTooLong)));
    }
    match as_text(text) {
        Some(text) => command_asked(alloc, text),
        None => Ok(Err(Refused::unnamed(FaultKind::NotText))),
    }
}

/// Bytes as a text, where they are UTF-8.
fn as_text(bytes: &[u8]) -> Option<&str>
    ensures { MatchOption result (is_utf8 bytes.now ≡ false) (λ text. (text.now ≡ bytes.now) × (is_utf8 bytes.now ≡ true)) }
{
    match str::from_utf8(bytes) {
        Ok(text) => Some(text),
        Err(_) => None,
    }
}

/// An empty line and a comment line ask for nothing.
fn is_skipped(text: &[u8]) -> bool
    ensures { result ≡ is_skipped text.now }
{
    match text {
        [] => true,
        [first, ..] => *first == b'#',
    }
}

/// A line without the blanks at its ends.
pub(crate) fn trimmed(line: &[u8]) -> &[u8]
    ensures { result.now ≡ trimmed line.now }
{
    from_first(up_to_last(line))
}

/// A line from its first byte that is no blank.
fn from_first(line: &[u8]) -> &[u8]
    ensures { result.now ≡ from_first line.now }
{
    let mut rest = line;
    'blanks: while let [first, others @ ..] = rest {
        if !is_blank(*first) {
            return rest;
        }
        rest = others;
    }
    rest
}

/// A line up to its last byte that is no blank.
fn up_to_last(line: &[u8]) -> &[u8]
    ensures { result.now ≡ up_to_last line.now }
{
    let mut rest = line;
    'blanks: while let [others @ .., last] = rest {
        if !is_blank(*last) {
            return rest;
        }
        rest = others;
    }
    rest
}

/// A line without the one carriage return that may stand at its end.
pub(crate) fn without_return(line: &[u8]) -> &[u8]
    ensures { result.now ≡ without_return line.now }
{
    match line {
        [front @ .., last] => { if *last == b'\r' { front } else { line } }
        [] => line,
    }
}
