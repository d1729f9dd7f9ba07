// Deletions of the records that a condition finds.
ghost use Rattle.std.specs.Prelude.{◌≡◌, false, true, IfErr, IfOk, IfSome, IsUtf8, Ok, Some, is_some, map, reverse};
ghost use Rattle.gr_base.specs.Failure.{Answers};
ghost use Rattle.gr_db.specs.Apply.{replay};
ghost use Rattle.gr_db.specs.Condition.{IsConditionFor};
ghost use Rattle.gr_db.specs.Entry.{IsHome};
ghost use Rattle.gr_db.specs.Fitting.{IsFitting};
ghost use Rattle.gr_db.specs.declared.entry.Change.TheVariants.{DeleteIf};
ghost use Rattle.gr_schema.specs.Schema.{table_at};
ghost use Rattle.gr_schema.specs.Wishes.{IsTold, home_of};
ghost use Rattle.gr_schema.specs.declared.definition.TableDef.{TableDef};
ghost use Rattle.gr_select.specs.Texts.{AreMade};
ghost use Rattle.gr_session.specs.Delete.{condition_in, delete_found, lexicon_fault};
ghost use Rattle.gr_session.specs.Inside.Kept.{Asks};
ghost use Rattle.gr_session.specs.Meaning.{counts};
ghost use Rattle.gr_session.specs.declared.form.Form.{Form};

use crate::asked::{Asked, refused};
use crate::form::Form;
use crate::reply::{Body, success};
use gr_base::{Failure, Fault, FaultKind, NoMemory, RecordId, TableNo};
use gr_db::{Change, SharedExpr};
use gr_expr::Expr;
use gr_plan::hits;
use gr_root::Root;
use gr_schema::{Schema, TableDef};
use gr_select::{Texts, condition, fault_named};
use std::alloc::Global;

// The records of a table that a condition finds.
pub(crate) fn delete_found(
    alloc: Global,
    root: &Root,
    table: TableNo,
    texts: &Texts,
) -> Result<Asked, NoMemory>
    requires there { is_some (table_at (replay root.now.journal).schema table) ≡ true }
    requires made { AreMade texts.now }
    ensures { (home : TableDef) (form : Form) → counts form ≡ false → table_at (replay root.now.journal).schema table ≡ Some home
        → IfOk result (λ asked. let db = replay root.now.journal in Asks db (delete_found form db table (condition_in db.schema (home_of table home) texts.now)) asked) }
{
    match condition_in(alloc, root.schema(), table, texts) {
        Ok(condition) => deletions(alloc, root, table, condition),
        Err(Failure::Refused(fault)) => refused(alloc, &Form::Plain, &fault),
        Err(Failure::NoMemory) => Err(NoMemory),
    }
}

// The condition by which records of a table are found; none of a lexicon are.
fn condition_in(
    alloc: Global,
    schema: &Schema,
    table: TableNo,
    texts: &Texts,
) -> Result<Expr, Failure<Fault>>
    requires there { is_some (table_at schema.now table) ≡ true }
    requires made { AreMade texts.now }
    ensures exact { (home : TableDef) → table_at schema.now table ≡ Some home → Answers result (condition_in schema.now (home_of table home) texts.now) }
    ensures home { (home : TableDef) → table_at schema.now table ≡ Some home → IfOk result (λ condition. IsHome schema.now table home) }
    ensures fit { IfOk result (IsConditionFor schema.now) }
    ensures text { IfErr result IsTold }
{
    let _sound = schema.indexes();
    match schema.def(table) {
        Some(home) => match lexicon_fault(alloc, home)? {
            Some(fault) => Err(Failure::Refused(fault)),
            None => condition(alloc, schema, table, texts),
        },
        None => unreachable!(),
    }
}

// The fault of a lexicon, whose records stay.
pub(crate) fn lexicon_fault(alloc: Global, home: &TableDef) -> Result<Option<Fault>, NoMemory>
    requires { IsUtf8 home.now.name }
    ensures exact { IfOk result (λ fault. fault ≡ lexicon_fault home.now) }
    ensures text { IfOk result (λ fault. IfSome fault (λ fault. IsUtf8 fault.name)) }
{
    if home.tokenizer.is_some() {
        let name = home.name.as_text();
        Ok(Some(fault_named(alloc, FaultKind::LexiconReadOnly, name)?))
    } else {
        Ok(None)
    }
}

// Deletions of the records that a condition finds now.
fn deletions(alloc: Global, root: &Root, table: TableNo, condition: Expr) -> Result<Asked, NoMemory>
    requires fitting { IsFitting (replay root.now.journal) }
    requires fits { IsConditionFor (replay root.now.journal).schema condition }
    ensures { (home : TableDef) (form : Form) → counts form ≡ false → IsHome (replay root.now.journal).schema table home
        → IfOk result (λ asked. let db = replay root.now.journal in Asks db (delete_found form db table (Ok condition)) asked) }
{
    let hits = hits(alloc, root, table, &condition)?;
    let condition = SharedExpr::new(alloc, condition)?;
    let changes = changes_of(alloc, table, hits.as_slice(), &condition)?;
    let answer = success(alloc, Body::True)?;
    Ok(Asked { changes, answer })
}

// A deletion for each hit, the first one last.
fn changes_of(
    alloc: Global,
    table: TableNo,
    hits: &[(RecordId, u32)],
    condition: &SharedExpr,
) -> Result<Vec<Change>, NoMemory>
    ensures { IfOk result (λ changes. reverse changes.items ≡ map (λ hit. DeleteIf table hit.0 condition.now) hits.now) }
{
    let mut changes = Vec::with_capacity(alloc, hits.len())?;
    for hit in hits {
        changes.push(Change::DeleteIf {
            table,
            id: hit.0,
            condition: condition.try_clone()?,
        })?;
    }
    changes.reverse();
    Ok(changes)
}
