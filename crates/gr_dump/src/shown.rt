// The columns that a load shows.
ghost use Rattle.std.specs.Prelude.{◌≡◌, [], filter, IfOk, Some};
ghost use Rattle.std.specs.List.{AllByRecursion};
ghost use Rattle.std.specs.Result.{result_unwrap_or};
ghost use Rattle.gr_db.specs.Db.{Db};
ghost use Rattle.gr_db.specs.Fitting.{IsFitting};
ghost use Rattle.gr_dump.specs.Inside.Begun.{is_kept};
ghost use Rattle.gr_dump.specs.Loads.{is_reference, key_columns};
ghost use Rattle.gr_print.specs.Columns.{columns, data_columns};
ghost use Rattle.gr_print.specs.Fits.{IsPrintable};
ghost use Rattle.gr_schema.specs.Schema.{table_at};
ghost use Rattle.gr_schema.specs.declared.definition.TableDef.{TableDef};

use gr_base::{Failure, NoMemory, TableNo};
use gr_print::{OutColumn, OutItem, columns};
use gr_schema::{Schema, TableDef};
use std::alloc::Global;

/// The key of a table's records, where they have one.
pub(crate) fn key_columns(
    alloc: Global,
    schema: &Schema,
    table: TableNo,
    home: &TableDef,
) -> Result<Vec<OutColumn>, NoMemory>
    requires { table_at schema.now table ≡ Some home.now }
    ensures exact { IfOk result (λ made. made.items ≡ key_columns schema.now table) }
    ensures fit { (db : Db) → db.schema ≡ schema.now → IsFitting db → IfOk result (λ made. AllByRecursion (IsPrintable db.tables) made.items) }
{
    named(alloc, schema, table, home, "_key")
}

/// The data columns of a table.
pub(crate) fn data_columns(
    alloc: Global,
    schema: &Schema,
    table: TableNo,
    home: &TableDef,
) -> Result<Vec<OutColumn>, NoMemory>
    requires { table_at schema.now table ≡ Some home.now }
    ensures exact { IfOk result (λ made. made.items ≡ data_columns schema.now table) }
    ensures fit { (db : Db) → db.schema ≡ schema.now → IsFitting db → IfOk result (λ made. AllByRecursion (IsPrintable db.tables) made.items) }
{
    named(alloc, schema, table, home, "*")
}

// The columns that names ask for; none where a name is none.
fn named(
    alloc: Global,
    schema: &Schema,
    table: TableNo,
    home: &TableDef,
    names: &str,
) -> Result<Vec<OutColumn>, NoMemory>
    requires { table_at schema.now table ≡ Some home.now }
    ensures exact { IfOk result (λ made. made.items ≡ result_unwrap_or (columns schema.now table home.now (Some names.now)) []) }
    ensures fit { (db : Db) → db.schema ≡ schema.now → IsFitting db → IfOk result (λ made. AllByRecursion (IsPrintable db.tables) made.items) }
{
    match columns(alloc, schema, table, Some(names)) {
        Ok(columns) => Ok(columns.into_vec()),
        Err(Failure::Refused(_)) => Ok(Vec::new(alloc)),
        Err(Failure::NoMemory) => Err(NoMemory),
    }
}

/// Of these columns those that are references, or those that are none.
pub(crate) fn kept(
    alloc: Global,
    columns: Vec<OutColumn>,
    references: bool,
) -> Result<Vec<OutColumn>, NoMemory>
    ensures { IfOk result (λ made. made.items ≡ filter (is_kept references) columns.items) }
{
    let mut made = Vec::new(alloc);
    for column in columns {
        if is_kept(&column, references) {
            made.push(column)?;
        }
    }
    Ok(made)
}

// Whether a column is kept.
fn is_kept(column: &OutColumn, references: bool) -> bool
    ensures { result ≡ is_kept references column.now }
{
    is_reference(column) == references
}

// Whether a column refers to records.
fn is_reference(column: &OutColumn) -> bool
    ensures { result ≡ is_reference column.now }
{
    match &column.item {
        OutItem::At(path) => path.to.is_some(),
        OutItem::Score => false,
    }
}
