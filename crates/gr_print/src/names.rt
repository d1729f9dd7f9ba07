// The columns that names ask for.
ghost use Rattle.std.specs.Prelude.{◌≡◌, ◌==◌, ◌∷◌, [], true, false, filter, if◌then◌else◌, is_some, length, not, IfErr, IfOk, Some};
ghost use Rattle.gr_base.specs.Failure.{Answers};
ghost use Rattle.std.specs.Str.{bytes_eq};
ghost use Rattle.gr_print.specs.Columns.{all_name, columns_named, default_names, listed, trimmed};
ghost use Rattle.gr_print.specs.Inside.Named.{Adds, ArePrintable};
ghost use Rattle.gr_schema.specs.Schema.{is_keyed, table_at};
ghost use Rattle.gr_schema.specs.Words.{key_name};
ghost use Rattle.gr_schema.specs.Wishes.{IsTold};
ghost use Rattle.gr_schema.specs.declared.definition.TableDef.{TableDef};

use crate::data::data_columns;
use crate::ends::trimmed;
use crate::{OutColumn, OutColumns, OutItem};
use gr_base::{Bytes, Failure, Fault, ListOf, TableNo};
use gr_schema::Schema;
use std::alloc::Global;

const SCORE: &str = "_score";

const ALL: &str = "*";

/// The id, the key where records have one, and all data columns.
pub(crate) fn default_columns(
    alloc: Global,
    schema: &Schema,
    table: TableNo,
) -> Result<OutColumns, Failure<Fault>>
    requires { is_some (table_at schema.now table) ≡ true }
    ensures exact { (home : TableDef) → table_at schema.now table ≡ Some home → Adds schema.now table [] (default_names home) result }
    ensures fit { IfOk result (ArePrintable schema.now) }
    ensures text { IfErr result IsTold }
{
    let none = ListOf::from_vec(Vec::new(alloc));
    let id = with_name(alloc, schema, table, none, "_id")?;
    let key = with_key(alloc, schema, table, id)?;
    with_name(alloc, schema, table, key, ALL)
}

// The columns so far and the key, where records have one.
fn with_key(
    alloc: Global,
    schema: &Schema,
    table: TableNo,
    made: OutColumns,
) -> Result<OutColumns, Failure<Fault>>
    requires there { is_some (table_at schema.now table) ≡ true }
    requires fit { ArePrintable schema.now made }
    ensures exact { (home : TableDef) → table_at schema.now table ≡ Some home → Adds schema.now table made (if is_keyed home then key_name ∷ [] else []) result }
    ensures fit { IfOk result (ArePrintable schema.now) }
    ensures text { IfErr result IsTold }
{
    if is_keyed(schema, table) {
        with_name(alloc, schema, table, made, "_key")
    } else {
        Ok(made)
    }
}

// Whether the records of a table have keys.
fn is_keyed(schema: &Schema, table: TableNo) -> bool
    ensures { (home : TableDef) → table_at schema.now table ≡ Some home → result ≡ is_keyed home }
{
    match schema.def(table) {
        Some(home) => home.key.is_some(),
        None => false,
    }
}

/// The columns of the names that a text lists, with commas between them. White space around a name is no part of it, and empty names are dropped.
pub(crate) fn listed_columns(
    alloc: Global,
    schema: &Schema,
    table: TableNo,
    text: &str,
) -> Result<OutColumns, Failure<Fault>>
    requires { is_some (table_at schema.now table) ≡ true }
    ensures exact { Adds schema.now table [] (listed text.now) result }
    ensures fit { IfOk result (ArePrintable schema.now) }
    ensures text { IfErr result IsTold }
{
    let mut made = ListOf::from_vec(Vec::new(alloc));
    for name in text.split(',') {
        made = with_listed(alloc, schema, table, made, trimmed(name))?;
    }
    Ok(made)
}

// The columns so far and those of one more name, where it is not empty.
fn with_listed(
    alloc: Global,
    schema: &Schema,
    table: TableNo,
    made: OutColumns,
    name: &str,
) -> Result<OutColumns, Failure<Fault>>
    requires there { is_some (table_at schema.now table) ≡ true }
    requires fit { ArePrintable schema.now made }
    ensures exact { Adds schema.now table made (filter (λ item. not (length item == 0)) (name.now ∷ [])) result }
    ensures fit { IfOk result (ArePrintable schema.now) }
    ensures text { IfErr result IsTold }
{
    if name.is_empty() {
        Ok(made)
    } else {
        with_name(alloc, schema, table, made, name)
    }
}

// The columns so far and those of one more name.
fn with_name(
    alloc: Global,
    schema: &Schema,
    table: TableNo,
    made: OutColumns,
    name: &str,
) -> Result<OutColumns, Failure<Fault>>
    requires there { is_some (table_at schema.now table) ≡ true }
    requires fit { ArePrintable schema.now made }
    ensures exact { Adds schema.now table made (name.now ∷ []) result }
    ensures fit { IfOk result (ArePrintable schema.now) }
    ensures text { IfErr result IsTold }
{
    let mut columns = made.into_vec();
    let mut more = columns_named(alloc, schema, table, name)?.into_vec();
    columns.append(&mut more)?;
    Ok(ListOf::from_vec(columns))
}

// The columns that a name stands for.
fn columns_named(
    alloc: Global,
    schema: &Schema,
    table: TableNo,
    name: &str,
) -> Result<OutColumns, Failure<Fault>>
    requires { is_some (table_at schema.now table) ≡ true }
    ensures exact { Answers result (columns_named schema.now table name.now) }
    ensures fit { IfOk result (ArePrintable schema.now) }
    ensures text { IfErr result IsTold }
{
    if ALL == name {
        Ok(data_columns(alloc, schema, table)?)
    } else {
        one_column(alloc, schema, table, name)
    }
}

// The column that a name stands for which does not stand for all.
fn one_column(
    alloc: Global,
    schema: &Schema,
    table: TableNo,
    name: &str,
) -> Result<OutColumns, Failure<Fault>>
    requires { is_some (table_at schema.now table) ≡ true }
    ensures exact { bytes_eq all_name name.now ≡ false → Answers result (columns_named schema.now table name.now) }
    ensures fit { IfOk result (ArePrintable schema.now) }
    ensures text { IfErr result IsTold }
{
    let item = if SCORE == name {
        OutItem::Score
    } else {
        OutItem::At(schema.resolve(alloc, table, name.as_bytes())?)
    };
    let name = Bytes::from_slice(alloc, name.as_bytes())?;
    let column = OutColumn { name, item };
    Ok(ListOf::from_vec(vec![in alloc; column]?))
}
