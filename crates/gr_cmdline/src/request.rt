// The command that a line asks for, in words or by a path.
ghost use Rattle.std.specs.Prelude.{◌≡◌, ◌∷◌, IfOk, Some, None, drop, if◌then◌else◌, option_map};
ghost use Rattle.gr_cmdline.specs.Inside.Reading.{BindsArguments, ReadsArgument, arguments_behind, arguments_in, word_of};
ghost use Rattle.gr_cmdline.specs.Line.{command_asked};
ghost use Rattle.gr_cmdline.specs.Request.{names_argument, request_in_words, request_of, request_with};

use super::Command;
use crate::argument::Argument;
use crate::bindings::Bindings;
use crate::cursor::Cursor;
use crate::path::command_by_path;
use crate::refused::Refused;
use crate::text::{Text, without_prefix};
use crate::verb::verb_named;
use crate::words::Word;
use gr_base::NoMemory;
use std::alloc::Global;

/// The command that a line asks for.
pub(crate) fn command_asked<'a>(
    alloc: Global,
    line: &'a str,
) -> Result<Result<Command, Refused<'a>>, NoMemory>
    ensures { IfOk result (λ command. command ≡ command_asked (request_of line.now)) }
{
    match without_prefix(line, "/d/") {
        Some(path) => command_by_path(alloc, path),
        None => command_in_words(alloc, line),
    }
}

/// The command that a line in words asks for: the first word is its name.
fn command_in_words<'a>(
    alloc: Global,
    line: &'a str,
) -> Result<Result<Command, Refused<'a>>, NoMemory>
    ensures { IfOk result (λ command. command ≡ command_asked (request_in_words line.now)) }
{
    let mut cursor = Cursor::new(line);
    match cursor.next_word(alloc)? {
        Ok(Some(word)) => command_named(alloc, word.into_text(), &mut cursor),
        Ok(None) => Ok(Err(Refused::bad_line())),
        Err(refusal) => Ok(Err(refusal)),
    }
}

/// The command of this name with the arguments that are left.
fn command_named<'a>(
    alloc: Global,
    name: Text<'a>,
    cursor: &mut Cursor<'a>,
) -> Result<Result<Command, Refused<'a>>, NoMemory>
    ensures { IfOk result (λ command. command ≡ command_asked (request_with name.entry (arguments_in cursor.old))) }
{
    let mut bindings = Bindings::new(alloc, verb_named(name.as_str()));
    match cursor.bind(alloc, &mut bindings)? {
        Ok(()) => bindings.into_command(alloc, name, Text::new()),
        Err(refusal) => Ok(Err(refusal)),
    }
}

impl<'a> Cursor<'a> {
    /// Binds the arguments that are left. What is refused for its form is told at once.
    fn bind(
        &mut self,
        alloc: Global,
        bindings: &mut Bindings<'a>,
    ) -> Result<Result<(), Refused<'a>>, NoMemory>
        ensures { IfOk result (λ bound. BindsArguments (arguments_in self.old) bindings.old bindings.new bound) }
    {
        'arguments: loop {
            match self.next_argument(alloc)? {
                Ok(Some(argument)) => bindings.push(alloc, argument)?,
                Ok(None) => return Ok(Ok(())),
                Err(refusal) => return Ok(Err(refusal)),
            }
        }
    }

    /// The next argument, where one is left.
    fn next_argument(
        &mut self,
        alloc: Global,
    ) -> Result<Result<Option<Argument<'a>>, Refused<'a>>, NoMemory>
        ensures { IfOk result (λ read. ReadsArgument (arguments_in self.old) self.old self.new read) }
    {
        match self.next_word(alloc)? {
            Ok(Some(word)) => self.argument_of(alloc, word),
            Ok(None) => Ok(Ok(None)),
            Err(refusal) => Ok(Err(refusal)),
        }
    }

    /// The argument that begins with a word: a name takes the next word as its value.
    fn argument_of(
        &mut self,
        alloc: Global,
        word: Word<'a>,
    ) -> Result<Result<Option<Argument<'a>>, Refused<'a>>, NoMemory>
        ensures { IfOk result (λ read. ReadsArgument (arguments_behind (word_of word.entry) self.old) (0 ∷ self.old) self.new read) }
    {
        let Some(name) = argument_name(&word) else {
            return Ok(Ok(Some(Argument::Placed(word.into_text()))));
        };
        match self.next_word(alloc)? {
            Ok(Some(value)) => Ok(Ok(Some(Argument::Named {
                name: Text::lent(name),
                value: value.into_text(),
            }))),
            Ok(None) => Ok(Err(Refused::bad_line())),
            Err(refusal) => Ok(Err(refusal)),
        }
    }
}

impl<'a> Word<'a> {
    /// Its text.
    fn into_text(self) -> Text<'a>
        ensures { result ≡ (word_of self.entry).text }
    {
        match self {
            Word::Plain(text) => Text::lent(text),
            Word::Quoted(text) => text,
        }
    }
}

/// The name of the argument that a word names, where it names one.
fn argument_name<'a>(word: &Word<'a>) -> Option<&'a str>
    ensures { option_map (λ name. name.now) result ≡ (if names_argument (word_of word.now) then Some (drop 2 (word_of word.now).text) else None) }
{
    match word {
        Word::Plain(text) => without_prefix(text, "--"),
        Word::Quoted(_) => None,
    }
}
