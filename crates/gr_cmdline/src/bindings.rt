// Arguments that are bound one by one, as they are read.
ghost use Rattle.std.specs.Prelude.{◌≡◌, IfOk, OnOk};
ghost use Rattle.std.specs.List.{list_any};
ghost use Rattle.gr_cmdline.specs.Names.{is_same};
ghost use Rattle.gr_cmdline.specs.Inside.Bindings.{is_spoken_of, no_bindings, with_argument, with_bound, with_repeated, with_unknown, with_value};

use super::{Args, Command, Param, Verb};
use crate::argument::Argument;
use crate::missing::complete;
use crate::refused::Refused;
use crate::text::Text;
use gr_base::{Bytes, FaultKind, NoMemory};
use std::alloc::Global;
use std::marker::Model;

/// The arguments of a line so far, each bound to its parameter. Of those without one, and of those that are repeated,
/// only the first is kept, so that no line makes it grow beyond its values.
#[derive(Drop)]
pub(crate) struct Bindings<'a> {
    verb: Option<Verb>,
    // How many values stood by their place, while each had a parameter.
    place: usize,
    // The values that are not empty; no parameter stands twice.
    given: Vec<(Param, Bytes)>,
    // The parameters whose value is empty.
    empty: Vec<Param>,
    unknown: Option<Text<'a>>,
    repeated: Option<Text<'a>>,
}

impl<'a> Model for Bindings<'a> {
    ghost use Rattle.std.specs.List.{AllByRecursion};
    ghost use Rattle.gr_cmdline.specs.Arguments.{IsText};
    ghost use Rattle.gr_cmdline.specs.Inside.Bindings.{Bindings};

    ghost Value = { Bindings };

    ghost view = { λ b. record { verb = b.verb; place = b.place; given = b.given.items; empty = b.empty.items; unknown = b.unknown; repeated = b.repeated } };

    ghost invariant = { λ b. AllByRecursion (λ value. IsText value.1) b.given.items };
}

impl<'a> Bindings<'a> {
    /// Before the first argument of a command; takes no memory.
    pub(crate) fn new(alloc: Global, verb: Option<Verb>) -> Bindings<'a>
        ensures { result ≡ no_bindings verb }
    {
        Bindings {
            verb,
            place: 0,
            given: Vec::new(alloc),
            empty: Vec::new(alloc),
            unknown: None,
            repeated: None,
        }
    }

    /// Binds one argument more.
    pub(crate) fn push(&mut self, alloc: Global, argument: Argument<'a>) -> Result<(), NoMemory>
        ensures { OnOk result (self.new ≡ with_argument self.old argument.entry) }
    {
        match argument {
            Argument::Named { name, value } => match self.param_named(name.as_str()) {
                Some(param) => self.bind(alloc, param, name, value),
                None => {
                    self.refuse(name);
                    Ok(())
                }
            },
            Argument::Placed(value) => match self.param_placed() {
                Some(param) => {
                    self.place += 1;
                    self.bind(alloc, param, Text::lent(param.name()), value)
                }
                None => {
                    self.refuse(value);
                    Ok(())
                }
            },
        }
    }
}

impl<'a> Bindings<'a> {
    ghost use Rattle.std.specs.Prelude.{◌+◌, ◌<◌, ◌^◌, IfSome, option_and_then};
    ghost use Rattle.gr_cmdline.specs.Inside.Bindings.{command_with};
    ghost use Rattle.gr_cmdline.specs.Parameters.{param_named, param_placed};

    /// The command that is asked for, where these were all its arguments.
    pub(crate) fn into_command(
        self,
        alloc: Global,
        name: Text<'a>,
        suffix: Text<'a>,
    ) -> Result<Result<Command, Refused<'a>>, NoMemory>
        ensures { IfOk result (λ command. command ≡ command_with self.entry name.entry suffix.entry) }
    {
        let Bindings {
            verb,
            given,
            unknown,
            repeated,
            ..
        } = self;
        let Some(verb) = verb else {
            return Ok(Err(Refused::new(FaultKind::UnknownCommand, name)));
        };
        if let Some(text) = unknown {
            return Ok(Err(Refused::new(FaultKind::UnknownArgument, text)));
        }
        if let Some(label) = repeated {
            return Ok(Err(Refused::new(FaultKind::RepeatedArgument, label)));
        }
        let args = Args::new(alloc, given, suffix.into_bytes(alloc)?);
        Ok(complete(verb, args))
    }

    /// The command's parameter of this name.
    fn param_named(&self, name: &str) -> Option<Param>
        ensures { result ≡ option_and_then (λ verb. param_named verb name.now) self.now.verb }
    {
        match self.verb {
            Some(verb) => verb.param_named(name),
            None => None,
        }
    }

    /// The command's parameter of the next value that stands by its place.
    fn param_placed(&self) -> Option<Param>
        ensures exact { result ≡ option_and_then (λ verb. param_placed verb self.now.place) self.now.verb }
        ensures room { IfSome result (λ param. self.now.place + 1 < 2 ^ 64) }
    {
        match self.verb {
            Some(verb) => verb.param_placed(self.place),
            None => None,
        }
    }

    /// Binds a value to a parameter, of which the argument speaks by this name.
    fn bind(
        &mut self,
        alloc: Global,
        param: Param,
        label: Text<'a>,
        value: Text<'a>,
    ) -> Result<(), NoMemory>
        ensures { OnOk result (self.new ≡ with_bound self.old param label.entry value.entry) }
    {
        if self.is_spoken_of(param) {
            self.repeat(label);
            return Ok(());
        }
        self.push_value(alloc, param, value)
    }

    /// Whether an argument spoke of a parameter.
    fn is_spoken_of(&self, param: Param) -> bool
        ensures { result ≡ is_spoken_of self.now param }
    {
        has_value(&self.given, param) || has_param(&self.empty, param)
    }

    /// Adds a value, or its parameter where it is empty.
    fn push_value(&mut self, alloc: Global, param: Param, value: Text<'a>) -> Result<(), NoMemory>
        ensures { OnOk result (self.new ≡ with_value self.old param value.entry) }
    {
        if value.is_empty() {
            self.empty.push(param)?;
            return Ok(());
        }
        self.given.push((param, value.into_bytes(alloc)?))?;
        Ok(())
    }

    /// Keeps an argument without a parameter, where it is the first.
    fn refuse(&mut self, text: Text<'a>)
        ensures { self.new ≡ with_unknown self.old text.entry }
    {
        if self.unknown.is_none() {
            self.unknown = Some(text);
        }
    }

    /// Keeps an argument whose parameter was spoken of, where it is the first.
    fn repeat(&mut self, label: Text<'a>)
        ensures { self.new ≡ with_repeated self.old label.entry }
    {
        if self.repeated.is_none() {
            self.repeated = Some(label);
        }
    }
}

/// Whether one of these values is of a parameter.
fn has_value(given: &[(Param, Bytes)], param: Param) -> bool
    ensures { result ≡ list_any (λ value. is_same value.0 param) given.now }
{
    given.iter().any(|value| value.0.is_same(param))
}

/// Whether a parameter is among these.
fn has_param(params: &[Param], param: Param) -> bool
    ensures { result ≡ list_any (λ other. is_same other param) params.now }
{
    params.iter().any(|other| other.is_same(param))
}
