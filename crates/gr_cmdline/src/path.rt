// The command that a line asks for by a path.
ghost use Rattle.std.specs.Prelude.{◌≡◌, IfOk, OnOk, map};
ghost use Rattle.std.specs.List.{after_first, before_first};
ghost use Rattle.form_urlencoded.specs.Form.{raw_pairs};
ghost use Rattle.gr_cmdline.specs.Binding.{command_of};
ghost use Rattle.gr_cmdline.specs.Inside.Bindings.{with_arguments};
ghost use Rattle.gr_cmdline.specs.Request.{argument_of_pair, decoded_text, is_dot, is_question, request_by_path};

use super::Command;
use crate::argument::Argument;
use crate::bindings::Bindings;
use crate::refused::Refused;
use crate::text::Text;
use crate::verb::verb_named;
use form_urlencoded::{decode, raw_pairs};
use gr_base::NoMemory;
use std::alloc::Global;

/// The command that a path names, with the arguments of its pairs.
pub(crate) fn command_by_path<'a>(
    alloc: Global,
    path: &'a str,
) -> Result<Result<Command, Refused<'a>>, NoMemory>
    ensures { IfOk result (λ command. command ≡ command_of (request_by_path path.now)) }
{
    let (front, pairs) = around_question(path);
    let (name, suffix) = around_dot(front);
    let mut bindings = Bindings::new(alloc, verb_named(name));
    bind_pairs(alloc, &mut bindings, pairs.as_bytes())?;
    bindings.into_command(alloc, Text::lent(name), Text::lent(suffix))
}

/// What stands before and behind the first question mark; without one nothing stands behind it.
fn around_question(text: &str) -> (&str, &str)
    ensures before { result.0.now ≡ before_first is_question text.now }
    ensures behind { result.1.now ≡ after_first is_question text.now }
{
    match text.split_once('?') {
        Some((before, behind)) => (before, behind),
        None => (text, ""),
    }
}

/// What stands before and behind the first dot; without one nothing stands behind it.
fn around_dot(text: &str) -> (&str, &str)
    ensures before { result.0.now ≡ before_first is_dot text.now }
    ensures behind { result.1.now ≡ after_first is_dot text.now }
{
    match text.split_once('.') {
        Some((before, behind)) => (before, behind),
        None => (text, ""),
    }
}

/// Binds the arguments that pairs are.
fn bind_pairs<'a>(
    alloc: Global,
    bindings: &mut Bindings<'a>,
    pairs: &'a [u8],
) -> Result<(), NoMemory>
    ensures { OnOk result (bindings.new ≡ with_arguments bindings.old (map argument_of_pair (raw_pairs pairs.now))) }
{
    for (name, value) in raw_pairs(pairs) {
        let argument = Argument::Named {
            name: decoded_text(alloc, name)?,
            value: decoded_text(alloc, value)?,
        };
        bindings.push(alloc, argument)?;
    }
    Ok(())
}

/// One side of a pair as a text.
fn decoded_text<'a>(alloc: Global, bytes: &'a [u8]) -> Result<Text<'a>, NoMemory>
    ensures { IfOk result (λ text. text ≡ decoded_text bytes.now) }
{
    Ok(Text::from_cow(decode(alloc, bytes)?))
}
