// Which columns are printed.
ghost use Rattle.std.specs.Prelude.{◌≡◌, true, is_some, IfErr, IfOk, Some};
ghost use Rattle.std.specs.Option.{option_copied};
ghost use Rattle.gr_base.specs.Failure.{Answers};
ghost use Rattle.std.specs.List.{AllByRecursion};
ghost use Rattle.gr_db.specs.Db.{Db};
ghost use Rattle.gr_db.specs.Fitting.{IsFitting};
ghost use Rattle.gr_print.specs.Columns.{columns};
ghost use Rattle.gr_print.specs.Fits.{IsPrintable};
ghost use Rattle.gr_schema.specs.Wishes.{IsTold};
ghost use Rattle.gr_schema.specs.Schema.{table_at};
ghost use Rattle.gr_schema.specs.declared.definition.TableDef.{TableDef};

use crate::names::{default_columns, listed_columns};
use gr_base::{Bytes, Failure, Fault, ListOf, TableNo};
use gr_schema::Schema;
use gr_values::Path;
use std::alloc::Global;

/// What a printed column shows.
#[derive(Drop)]
pub enum OutItem {
    /// What stands at a path.
    At(Path),
    /// The record's score.
    Score,
}

/// A column that is printed.
#[derive(Drop)]
pub struct OutColumn {
    /// Its name, as it was asked for; UTF-8.
    pub name: Bytes,
    /// What it shows.
    pub item: OutItem,
}

/// Columns that are printed, in order.
pub type OutColumns = ListOf<OutColumn>;

/// The columns that a list of names asks for: paths, `_score`, and `*` for all data columns. Where no list is given they are `_id`, `_key` in a keyed table,
/// and all data columns. A name that is none is `NoSuchColumn` with the name.
pub fn columns(
    alloc: Global,
    schema: &Schema,
    table: TableNo,
    text: Option<&str>,
) -> Result<OutColumns, Failure<Fault>>
    requires { is_some (table_at schema.now table) ≡ true }
    ensures exact { (home : TableDef) → table_at schema.now table ≡ Some home → Answers result (columns schema.now table home (option_copied text.entry)) }
    ensures fit { (db : Db) → db.schema ≡ schema.now → IsFitting db → IfOk result (AllByRecursion (IsPrintable db.tables)) }
    ensures text { IfErr result IsTold }
{
    match text {
        Some(text) => listed_columns(alloc, schema, table, text),
        None => default_columns(alloc, schema, table),
    }
}
