// `select`: the records of a table that a condition finds.
ghost use Rattle.std.specs.Prelude.{◌≡◌, true, IfOk, Some, is_some};
ghost use Rattle.gr_cmdline.specs.Arguments.{AreTexts};
ghost use Rattle.gr_db.specs.Apply.{replay};
ghost use Rattle.gr_schema.specs.Schema.{table_at};
ghost use Rattle.gr_schema.specs.Wishes.{home_of};
ghost use Rattle.gr_schema.specs.declared.definition.TableDef.{TableDef};
ghost use Rattle.gr_select.specs.Texts.{AreMade};
ghost use Rattle.gr_session.specs.Inside.Kept.{Asks};
ghost use Rattle.gr_session.specs.Select.{select, select_of};

use crate::asked::{Asked, nothing, refused};
use crate::checks::text_of;
use crate::form::Form;
use crate::reply::success_with;
use gr_base::{Failure, FaultKind, NoMemory, TableNo};
use gr_cmdline::{Command, Param};
use gr_root::Root;
use gr_select::{Texts, fault_named, select as shown};
use std::alloc::Global;

pub(crate) fn select(
    alloc: Global,
    root: &Root,
    command: &Command,
    texts: &Texts,
) -> Result<Asked, NoMemory>
    requires made { AreMade texts.now }
    ensures { IfOk result (λ asked. let db = replay root.now.journal in Asks db (select db command.now texts.now) asked) }
{
    let name = text_of(command, Param::Table);
    match root.schema().table(name.as_bytes()) {
        Some(table) => select_in(alloc, root, table, command, texts),
        None => {
            let fault = fault_named(alloc, FaultKind::NoSuchTable, name)?;
            refused(alloc, &Form::Plain, &fault)
        }
    }
}

// The records of a table that is there, or the first fault of what is asked for.
fn select_in(
    alloc: Global,
    root: &Root,
    table: TableNo,
    command: &Command,
    texts: &Texts,
) -> Result<Asked, NoMemory>
    requires there { is_some (table_at (replay root.now.journal).schema table) ≡ true }
    requires made { AreMade texts.now }
    ensures { (home : TableDef) → table_at (replay root.now.journal).schema table ≡ Some home
        → IfOk result (λ asked. let db = replay root.now.journal in Asks db (select_of db (Some (home_of table home)) command.now texts.now) asked) }
{
    match shown(alloc, root.schema(), root, table, &command.args, texts) {
        Ok(body) => Ok(nothing(alloc, success_with(alloc, &body)?)),
        Err(Failure::Refused(fault)) => refused(alloc, &Form::Plain, &fault),
        Err(Failure::NoMemory) => Err(NoMemory),
    }
}
