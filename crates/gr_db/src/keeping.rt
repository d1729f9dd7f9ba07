// Values as they are kept, and the records that keys and ids stand for.
ghost use Rattle.std.specs.Prelude.{◌≡◌, ◌∷◌, [], IfOk, OnOk, List, map};
ghost use Rattle.std.specs.Option.{option_copied};
ghost use Rattle.gr_db.specs.Apply.{counts, id_if, id_of_key, id_which, kept, own_id};
ghost use Rattle.gr_db.specs.Db.{Db};
ghost use Rattle.gr_expr.specs.Fits.{Fits};

use crate::{Change, Which};
use gr_base::{Bytes, Ids, Ints, ListOf, NoMemory, RecordId, TableNo, Texts};
use gr_expr::{Expr, Rows, score};
use gr_values::{Cell, Given, Key};
use std::alloc::Global;

/// A value as it is kept: references to this table are kept by ids. A text shares its bytes with the one given, and lists are copied.
pub fn kept<R: Rows>(
    alloc: Global,
    rows: &R,
    to: Option<TableNo>,
    given: &Given,
) -> Result<Cell, NoMemory>
    ensures { (db : Db) → db.tables ≡ R.Rows.tables rows.now → IfOk result (λ cell. cell ≡ kept db to given.now) }
{
    match given {
        Given::Bool(truth) => Ok(Cell::Bool(*truth)),
        Given::Int(number) => Ok(Cell::Int(*number)),
        Given::Text(text) => Ok(Cell::Text(text.try_clone()?)),
        Given::Ref(key) => Ok(Cell::Ref(id_given(rows, to, key))),
        Given::RefList(keys) => Ok(Cell::RefList(ids_of_keys(alloc, rows, to, keys.as_slice())?)),
        Given::IntList(numbers) => Ok(Cell::IntList(copied_ints(alloc, numbers)?)),
        Given::TextList(texts) => Ok(Cell::TextList(shared_texts(alloc, texts.as_slice())?)),
    }
}

// The id of the record of a key, and 0 where no key is given, or there is no such record.
fn id_given<R: Rows>(rows: &R, to: Option<TableNo>, key: &Option<Key>) -> RecordId
    ensures { (db : Db) → db.tables ≡ R.Rows.tables rows.now → Cell.Ref result ≡ kept db to (Given.Ref key.now) }
{
    match key {
        Some(key) => id_of_key(rows, to, key),
        None => RecordId(0),
    }
}

// The id of the record of a key, and 0 where there is none.
fn id_of_key<R: Rows>(rows: &R, to: Option<TableNo>, key: &Key) -> RecordId
    ensures { (db : Db) → db.tables ≡ R.Rows.tables rows.now → result ≡ id_of_key db to key.now }
{
    match to {
        Some(table) => rows.find(table, key).unwrap_or(RecordId(0)),
        None => RecordId(0),
    }
}

// The ids of the records of keys.
fn ids_of_keys<R: Rows>(
    alloc: Global,
    rows: &R,
    to: Option<TableNo>,
    keys: &[Key],
) -> Result<Ids, NoMemory>
    ensures { (db : Db) → db.tables ≡ R.Rows.tables rows.now → IfOk result (λ ids. ids ≡ map (id_of_key db to) keys.now) }
{
    let mut ids = Vec::with_capacity(alloc, keys.len())?;
    for key in keys {
        ids.push(id_of_key(rows, to, key))?;
    }
    Ok(ListOf::from_vec(ids))
}

// The same numbers.
fn copied_ints(alloc: Global, numbers: &Ints) -> Result<Ints, NoMemory>
    ensures { IfOk result (λ copy. copy ≡ numbers.now) }
{
    let copied = Vec::from_slice(alloc, numbers.as_slice())?;
    Ok(ListOf::from_vec(copied))
}

// The same texts, each with one more owner.
fn shared_texts(alloc: Global, texts: &[Bytes]) -> Result<Texts, NoMemory>
    ensures { IfOk result (λ copy. copy ≡ texts.now) }
{
    let mut copies = Vec::with_capacity(alloc, texts.len())?;
    for text in texts {
        copies.push(text.try_clone()?)?;
    }
    Ok(ListOf::from_vec(copies))
}

/// The record that a put is about, once it is there: the one of its key, or where it has none the one added last.
pub fn own_id<R: Rows>(rows: &R, table: TableNo, key: Option<&Key>) -> RecordId
    ensures { (db : Db) → db.tables ≡ R.Rows.tables rows.now → result ≡ own_id db table (option_copied key.entry) }
{
    match key {
        Some(key) => id_of_key(rows, Some(table), key),
        None => rows.last_id(table),
    }
}

/// The record that is to be deleted, where it is there.
pub fn id_which<R: Rows>(rows: &R, table: TableNo, by: &Which) -> Option<RecordId>
    ensures { (db : Db) → db.tables ≡ R.Rows.tables rows.now → result ≡ id_which db table by.now }
{
    match by {
        Which::Id(id) => {
            if rows.is_alive(table, *id) {
                Some(*id)
            } else {
                None
            }
        }
        Which::Key(key) => rows.find(table, key),
    }
}

/// The record, where it is there and a condition finds it.
pub fn id_if<R: Rows>(rows: &R, table: TableNo, id: RecordId, condition: &Expr) -> Option<RecordId>
    requires { Fits (R.Rows.tables rows.now) condition.now }
    ensures { (db : Db) → db.tables ≡ R.Rows.tables rows.now → result ≡ id_if db table id condition.now }
{
    if rows.is_alive(table, id) && score(rows, id, condition) > 0 {
        Some(id)
    } else {
        None
    }
}

/// Whether a change counts towards the limit of a journal: a merge does not.
pub fn counts(change: &Change) -> bool
    ensures { result ≡ counts change.now }
{
    !matches!(change, Change::Merge { .. })
}
