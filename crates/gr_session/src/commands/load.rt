// `load`: records that are put into a table, row by row.
ghost use Rattle.std.specs.Prelude.{◌≡◌, true, IfOk, IfSome, IsUtf8, Some, is_some, map, reverse};
ghost use Rattle.std.specs.Fmt.{decimal};
ghost use Rattle.gr_cmdline.specs.Arguments.{AreTexts};
ghost use Rattle.gr_db.specs.Apply.{replay};
ghost use Rattle.gr_db.specs.Db.{Db};
ghost use Rattle.gr_schema.specs.Schema.{table_at};
ghost use Rattle.gr_schema.specs.Wishes.{home_of};
ghost use Rattle.gr_schema.specs.declared.definition.TableDef.{TableDef};
ghost use Rattle.gr_session.specs.Inside.Kept.{Asks};
ghost use Rattle.gr_session.specs.Load.{changes_of, load, load_at, rows_line};

use crate::asked::{Asked, refused};
use crate::checks::text_of;
use crate::form::Form;
use crate::reply::{Body, refusal, success};
use gr_base::{Bytes, Fault, FaultKind, NoMemory, TableNo};
use gr_cmdline::{Command, Param};
use gr_db::Change;
use gr_root::Root;
use gr_rows::{Puts, rows};
use gr_schema::Schema;
use gr_select::fault_named;
use std::alloc::Global;

pub(crate) fn load(alloc: Global, root: &Root, command: &Command) -> Result<Asked, NoMemory>
    requires { AreTexts command.now.args }
    ensures { IfOk result (λ asked. let db = replay root.now.journal in Asks db (load db command.now) asked) }
{
    let name = text_of(command, Param::Table);
    match root.schema().table(name.as_bytes()) {
        Some(table) => load_into(alloc, root.schema(), table, command),
        None => {
            let fault = fault_named(alloc, FaultKind::NoSuchTable, name)?;
            refused(alloc, &Form::Counting, &fault)
        }
    }
}

// Load data for a table that is there.
fn load_into(
    alloc: Global,
    schema: &Schema,
    table: TableNo,
    command: &Command,
) -> Result<Asked, NoMemory>
    requires { is_some (table_at schema.now table) ≡ true }
    ensures { (db : Db) (home : TableDef) → db.schema ≡ schema.now → table_at schema.now table ≡ Some home
        → IfOk result (λ asked. Asks db (load_at db.schema (Some (home_of table home)) command.now) asked) }
{
    let columns = command.args.get(Param::Columns);
    let rows = rows(
        alloc,
        schema,
        table,
        columns,
        text_of(command, Param::Values),
    )?;
    let answer = rows_answer(alloc, rows.puts.as_slice().len() as u64, &rows.fault)?;
    let changes = changes_of(alloc, table, rows.puts)?;
    Ok(Asked { changes, answer })
}

// Success with the number of rows, or the fault of the row after them.
fn rows_answer(alloc: Global, count: u64, fault: &Option<Fault>) -> Result<Bytes, NoMemory>
    requires { IfSome fault.now (λ found. IsUtf8 found.name) }
    ensures { IfOk result (λ text. text ≡ rows_line (decimal count) fault.now) }
{
    match fault {
        Some(fault) => refusal(alloc, fault, Body::Rows(count)),
        None => success(alloc, Body::Rows(count)),
    }
}

// Puts as changes of a table, the first one last.
fn changes_of(alloc: Global, table: TableNo, puts: Puts) -> Result<Vec<Change>, NoMemory>
    ensures { IfOk result (λ changes. reverse changes.items ≡ changes_of table puts) }
{
    let mut puts = puts.into_vec();
    let mut changes = Vec::with_capacity(alloc, puts.len())?;
    while let Some(put) = puts.pop() {
        changes.push(Change::Put {
            table,
            key: put.key,
            settings: put.settings,
        })?;
    }
    Ok(changes)
}
