// What each command means, and each line that is refused.
ghost use Rattle.std.specs.Prelude.{◌≡◌, IfOk, IsUtf8};
ghost use Rattle.gr_cmdline.specs.Arguments.{AreTexts};
ghost use Rattle.gr_cmdline.specs.Commands.{IsItem};
ghost use Rattle.gr_db.specs.Apply.{replay};
ghost use Rattle.gr_session.specs.Commands.{meaning_by_verb, meaning_of, meaning_unless};
ghost use Rattle.gr_select.specs.Texts.{AreMade};
ghost use Rattle.gr_session.specs.Inside.Kept.{Asks};

mod column_create;
mod delete;
mod delete_found;
mod dump;
mod load;
mod select;
mod table_create;

ghost use Rattle.gr_session.specs.Fixed.{fixed_fault};

use crate::asked::{Asked, refused};
use crate::fixed::fixed_fault;
use crate::form::Form;
use crate::parsed::Parsed;
use column_create::column_create;
use delete::delete;
use dump::dump;
use gr_base::NoMemory;
use gr_cmdline::{Command, Item, Verb};
use gr_root::Root;
use gr_select::Texts;
use load::load;
use select::select;
use std::alloc::Global;
use table_create::table_create;

// What an item asks for and answers, read at this state.
pub(crate) fn asked_of(alloc: Global, root: &Root, parsed: &Parsed) -> Result<Asked, NoMemory>
    requires item { IsItem parsed.now.item }
    requires made { AreMade parsed.now.texts }
    ensures { IfOk result (λ asked. let db = replay root.now.journal in Asks db (meaning_of db parsed.now) asked) }
{
    match &parsed.item {
        Item::Command(command) => asked_by(alloc, root, command, &parsed.texts),
        Item::Bad(fault) => refused(alloc, &Form::Plain, fault),
    }
}

fn asked_by(alloc: Global, root: &Root, command: &Command, texts: &Texts) -> Result<Asked, NoMemory>
    requires text { AreTexts command.now.args }
    requires made { AreMade texts.now }
    ensures { IfOk result (λ asked. let db = replay root.now.journal in Asks db (meaning_unless (fixed_fault command.now) db command.now texts.now) asked) }
{
    match fixed_fault(alloc, command)? {
        Some(fault) => refused(alloc, &Form::of_command(alloc, command)?, &fault),
        None => asked_by_verb(alloc, root, command, texts),
    }
}

fn asked_by_verb(
    alloc: Global,
    root: &Root,
    command: &Command,
    texts: &Texts,
) -> Result<Asked, NoMemory>
    requires text { AreTexts command.now.args }
    requires made { AreMade texts.now }
    ensures { IfOk result (λ asked. let db = replay root.now.journal in Asks db (meaning_by_verb command.now.verb db command.now texts.now) asked) }
{
    match command.verb {
        Verb::TableCreate => table_create(alloc, command),
        Verb::ColumnCreate => column_create(alloc, command),
        Verb::Load => load(alloc, root, command),
        Verb::Delete => delete(alloc, root, command, texts),
        Verb::Select => select(alloc, root, command, texts),
        Verb::Dump => dump(alloc, root),
    }
}
