// How a command's replies are written where not all of it is done.
ghost use Rattle.std.specs.Prelude.{◌≡◌, ◌<◌, ◌^◌, ◌-◌, IfOk, IsUtf8};
ghost use Rattle.gr_session.specs.Commands.{form_of_command};
ghost use Rattle.gr_session.specs.Inside.Body.{body_text};
ghost use Rattle.gr_session.specs.Inside.Forms.{IsLegible, form_of};
ghost use Rattle.gr_session.specs.Delete.{name_given};
ghost use Rattle.gr_session.specs.Meaning.{body_after, calling, counts, fault_after};
ghost use Rattle.gr_session.specs.ReplyText.{refusal_line, want_of_memory_line};

use crate::checks::text_of;
use crate::reply::{Body, refusal, want_of_memory};
use gr_base::{Bytes, Fault, FaultKind, NoMemory};
use gr_cmdline::{Command, Item, Param, Verb};
use std::alloc::Global;

// How a command's replies are written; it is chosen once, when the command begins.
#[derive(Drop)]
pub(crate) enum Form {
    // Their body is `false`.
    Plain,
    // Their body is the number of rows that were entered, and a refusal says in which row.
    Counting,
    // Their body is `false`, and a record that is not there is told by this text.
    Naming(Bytes),
}

impl Form {
    pub(crate) fn of(alloc: Global, item: &Item) -> Result<Form, NoMemory>
        ensures exact { IfOk result (λ form. form ≡ form_of item.now) }
        ensures legible { IfOk result IsLegible }
    {
        match item {
            Item::Command(command) => Form::of_command(alloc, command),
            Item::Bad(_) => Ok(Form::Plain),
        }
    }

    pub(crate) fn of_command(alloc: Global, command: &Command) -> Result<Form, NoMemory>
        ensures exact { IfOk result (λ form. form ≡ form_of_command command.now) }
        ensures legible { IfOk result IsLegible }
    {
        match command.verb {
            Verb::Load => Ok(Form::Counting),
            Verb::Delete => Ok(Form::Naming(name_given(alloc, command)?)),
            _ => Ok(Form::Plain),
        }
    }

    // Whether rows are counted.
    pub(crate) fn counts(&self) -> bool
        ensures { result ≡ counts self.now }
    {
        match self {
            Form::Counting => true,
            Form::Plain | Form::Naming(_) => false,
        }
    }

    // The body of a reply after so many changes.
    fn body(&self, made: u64) -> Body
        ensures { body_text result ≡ body_after self.now made }
    {
        if self.counts() {
            Body::Rows(made)
        } else {
            Body::False
        }
    }

    // The reply to want of memory after so many changes.
    pub(crate) fn starved(&self, alloc: Global, made: u64) -> Result<Bytes, NoMemory>
        ensures { IfOk result (λ text. text ≡ want_of_memory_line (body_after self.now made)) }
    {
        want_of_memory(alloc, self.body(made))
    }

    // The reply to a command that is refused as it is read.
    pub(crate) fn refused_as_read(&self, alloc: Global, fault: &Fault) -> Result<Bytes, NoMemory>
        requires { IsUtf8 fault.now.name }
        ensures { IfOk result (λ text. text ≡ refusal_line fault.now (body_after self.now 0)) }
    {
        refusal(alloc, fault, self.body(0))
    }

    // The reply where the change after so many is refused.
    pub(crate) fn refused(&self, alloc: Global, made: u64, fault: Fault) -> Result<Bytes, NoMemory>
        requires text { IsUtf8 fault.name }
        requires name { IsLegible self.now }
        requires countable { made < 2 ^ 64 - 1 }
        ensures { IfOk result (λ text. text ≡ refusal_line (fault_after self.now made fault) (body_after self.now made)) }
    {
        let fault = match self {
            Form::Plain => fault,
            Form::Counting => Fault {
                row: Some(made + 1),
                ..fault
            },
            Form::Naming(name) => calling(name, fault)?,
        };
        refusal(alloc, &fault, self.body(made))
    }
}

// Whether an item's rows are counted.
pub(crate) fn counts_rows(item: &Item) -> bool
    ensures { result ≡ counts (form_of item.now) }
{
    match item {
        Item::Command(command) => command.verb == Verb::Load,
        Item::Bad(_) => false,
    }
}

// The text that names the record of a delete.
fn name_given(alloc: Global, command: &Command) -> Result<Bytes, NoMemory>
    ensures exact { IfOk result (λ name. name ≡ name_given command.now) }
    ensures text { IfOk result IsUtf8 }
{
    let name = match command.args.get(Param::Key) {
        Some(key) => key,
        None => text_of(command, Param::Id),
    };
    Bytes::from_slice(alloc, name.as_bytes())
}

// A fault; that a record is not there is told by this name.
fn calling(name: &Bytes, fault: Fault) -> Result<Fault, NoMemory>
    requires name { IsUtf8 name.now }
    requires fault { IsUtf8 fault.name }
    ensures exact { IfOk result (λ told. told ≡ calling name.now fault) }
    ensures text { IfOk result (λ told. IsUtf8 told.name) }
{
    match fault.kind {
        FaultKind::NoSuchRecord => Ok(Fault {
            name: name.try_clone()?,
            ..fault
        }),
        _ => Ok(fault),
    }
}
