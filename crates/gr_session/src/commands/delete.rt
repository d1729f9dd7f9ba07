// `delete`: records that are removed.
ghost use Rattle.std.specs.Prelude.{◌≡◌, true, IfErr, IfOk, IfSome, IsUtf8, Some, is_some};
ghost use Rattle.gr_base.specs.Failure.{Answers};
ghost use Rattle.gr_cmdline.specs.Arguments.{AreTexts, value_of};
ghost use Rattle.gr_cmdline.specs.declared.param.Param.TheVariants.{Id, Key};
ghost use Rattle.gr_db.specs.Apply.{replay};
ghost use Rattle.gr_db.specs.Db.{Db};
ghost use Rattle.gr_db.specs.Entry.{IsWhich};
ghost use Rattle.gr_schema.specs.Schema.{table_at};
ghost use Rattle.gr_schema.specs.Wishes.{IsTold, home_of};
ghost use Rattle.gr_schema.specs.declared.definition.TableDef.{TableDef};
ghost use Rattle.gr_select.specs.Texts.{AreMade};
ghost use Rattle.gr_session.specs.Checks.{text_of};
ghost use Rattle.gr_session.specs.Delete.{delete, delete_of, delete_which, id_of_text, is_signed, name_given, which_in, which_of, which_of_id, which_of_key};
ghost use Rattle.gr_session.specs.Inside.Kept.{Asks};
ghost use Rattle.gr_session.specs.declared.form.Form.TheVariants.{Naming};
ghost use Rattle.gr_values.specs.Types.{is_key_type};

use crate::asked::{Asked, one_change, refused};
use crate::checks::text_of;
use crate::commands::delete_found::{delete_found, lexicon_fault};
use crate::form::Form;
use gr_base::{Failure, Fault, FaultKind, NoMemory, RecordId, TableNo};
use gr_cmdline::{Command, Param};
use gr_db::{Change, Which};
use gr_root::Root;
use gr_schema::{Schema, TableDef};
use gr_select::{Texts, fault_named, number_of};
use gr_values::{DataType, key_of_text};
use std::alloc::Global;

pub(crate) fn delete(
    alloc: Global,
    root: &Root,
    command: &Command,
    texts: &Texts,
) -> Result<Asked, NoMemory>
    requires text { AreTexts command.now.args }
    requires made { AreMade texts.now }
    ensures { IfOk result (λ asked. let db = replay root.now.journal in Asks db (delete db command.now texts.now) asked) }
{
    let name = text_of(command, Param::Table);
    match root.schema().table(name.as_bytes()) {
        Some(table) => delete_from(alloc, root, table, command, texts),
        None => {
            let fault = fault_named(alloc, FaultKind::NoSuchTable, name)?;
            refused(alloc, &Form::Plain, &fault)
        }
    }
}

// Records of a table that is there: those that a filter finds, or the one that is named.
fn delete_from(
    alloc: Global,
    root: &Root,
    table: TableNo,
    command: &Command,
    texts: &Texts,
) -> Result<Asked, NoMemory>
    requires there { is_some (table_at (replay root.now.journal).schema table) ≡ true }
    requires made { AreMade texts.now }
    ensures { (home : TableDef) → table_at (replay root.now.journal).schema table ≡ Some home
        → IfOk result (λ asked. let db = replay root.now.journal in Asks db (delete_of (Naming (name_given command.now)) db (Some (home_of table home)) command.now texts.now) asked) }
{
    match command.args.get(Param::Filter) {
        Some(_) => delete_found(alloc, root, table, texts),
        None => delete_named(alloc, root.schema(), table, command),
    }
}

// The record that is named.
fn delete_named(
    alloc: Global,
    schema: &Schema,
    table: TableNo,
    command: &Command,
) -> Result<Asked, NoMemory>
    requires { is_some (table_at schema.now table) ≡ true }
    ensures { (db : Db) (home : TableDef) → db.schema ≡ schema.now → table_at schema.now table ≡ Some home
        → IfOk result (λ asked. Asks db (delete_which (Naming (name_given command.now)) table (which_in home command.now)) asked) }
{
    let _sound = schema.indexes();
    match schema.def(table) {
        Some(home) => match which(alloc, home, command) {
            Ok(by) => one_change(alloc, Change::Delete { table, by }),
            Err(Failure::Refused(fault)) => refused(alloc, &Form::Plain, &fault),
            Err(Failure::NoMemory) => Err(NoMemory),
        },
        None => unreachable!(),
    }
}

// The record that is named; none of a lexicon is.
fn which(alloc: Global, home: &TableDef, command: &Command) -> Result<Which, Failure<Fault>>
    requires name { IsUtf8 home.now.name }
    requires key { IfSome home.now.key (λ of. is_key_type of ≡ true) }
    ensures exact { Answers result (which_in home.now command.now) }
    ensures fits { IfOk result (IsWhich home.now) }
    ensures text { IfErr result IsTold }
{
    match lexicon_fault(alloc, home)? {
        Some(fault) => Err(Failure::Refused(fault)),
        None => which_given(alloc, home.key, command),
    }
}

// The record that is named, by its key or, where none is given, by its id.
fn which_given(
    alloc: Global,
    of: Option<DataType>,
    command: &Command,
) -> Result<Which, Failure<Fault>>
    requires key { IfSome of (λ of. is_key_type of ≡ true) }
    ensures exact { (home : TableDef) → home.key ≡ of → Answers result (which_of home (value_of command.now.args.given Key) (text_of command.now Id)) }
    ensures fits { (home : TableDef) → home.key ≡ of → IfOk result (IsWhich home) }
    ensures text { IfErr result IsTold }
{
    match command.args.get(Param::Key) {
        Some(text) => which_of_key(alloc, of, text),
        None => which_of_id(alloc, text_of(command, Param::Id)),
    }
}

// The record of the key that a text writes; a table without keys takes none.
fn which_of_key(alloc: Global, of: Option<DataType>, text: &str) -> Result<Which, Failure<Fault>>
    requires { IfSome of (λ of. is_key_type of ≡ true) }
    ensures exact { Answers result (which_of_key of text.now) }
    ensures fits { (home : TableDef) → home.key ≡ of → IfOk result (IsWhich home) }
    ensures text { IfErr result IsTold }
{
    let Some(of) = of else {
        return Err(Failure::Refused(fault_named(alloc, FaultKind::KeyGiven, "")?));
    };
    match key_of_text(alloc, text, of) {
        Ok(key) => Ok(Which::Key(key)),
        Err(Failure::Refused(kind)) => Err(Failure::Refused(fault_named(alloc, kind, "key")?)),
        Err(Failure::NoMemory) => Err(Failure::NoMemory),
    }
}

// The record of the id that a text writes.
fn which_of_id(alloc: Global, text: &str) -> Result<Which, Failure<Fault>>
    ensures exact { Answers result (which_of_id text.now) }
    ensures fits { (home : TableDef) → IfOk result (IsWhich home) }
    ensures text { IfErr result IsTold }
{
    match id_of_text(alloc, text)? {
        Some(id) => Ok(Which::Id(id)),
        None => Err(Failure::Refused(fault_named(alloc, FaultKind::BadNumber, "id")?)),
    }
}

// The id that decimal digits write.
fn id_of_text(alloc: Global, text: &str) -> Result<Option<RecordId>, NoMemory>
    ensures { IfOk result (λ id. id ≡ id_of_text text.now) }
{
    if is_signed(text.as_bytes()) {
        return Ok(None);
    }
    match number_of(alloc, text, DataType::UInt32)? {
        Some(number) => Ok(Some(RecordId(number as u32))),
        None => Ok(None),
    }
}

// Whether a minus stands first.
fn is_signed(text: &[u8]) -> bool
    ensures { result ≡ is_signed text.now }
{
    match text.split_first() {
        Some((first, _)) => *first == b'-',
        None => false,
    }
}
