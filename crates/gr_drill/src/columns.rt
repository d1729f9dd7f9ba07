// The columns of groups that names ask for.
ghost use Rattle.std.specs.Prelude.{◌≡◌, false, map, IfErr, IfOk};
ghost use Rattle.std.specs.List.{AllByRecursion};
ghost use Rattle.std.specs.Option.{option_copied};
ghost use Rattle.std.specs.Str.{bytes_eq};
ghost use Rattle.gr_base.specs.Failure.{Answers};
ghost use Rattle.gr_drill.specs.Drilldowns.{all_columns, column_at, columns_named, columns_of, columns_shown};
ghost use Rattle.gr_drill.specs.Inside.Fitting.{IsShownFor};
ghost use Rattle.gr_print.specs.Columns.{all_name};
ghost use Rattle.gr_print.specs.Inside.Named.{ArePrintable};
ghost use Rattle.gr_schema.specs.Wishes.{IsTold};

use crate::drilldown::{GroupColumn, GroupColumns};
use crate::items::{item_named, shown_at};
use crate::names::listed;
use gr_base::{Bytes, Failure, Fault, ListOf, NoMemory, TableNo};
use gr_print::{OutColumn, OutColumns, data_columns};
use gr_schema::Schema;
use std::alloc::Global;

const ALL: &str = "*";

const DEFAULT: &str = "_key, _nsubrecs";

/// The columns of groups that refer to records of this table, or to none: those of the names that a text lists, or the key and the count where none is given.
pub(crate) fn columns_shown(
    alloc: Global,
    schema: &Schema,
    to: Option<TableNo>,
    text: Option<&str>,
) -> Result<GroupColumns, Failure<Fault>>
    ensures exact { Answers result (columns_shown schema.now to (option_copied text.entry)) }
    ensures fit { IfOk result (AllByRecursion (IsShownFor schema.now)) }
    ensures text { IfErr result IsTold }
{
    let names = listed(alloc, text.unwrap_or(DEFAULT))?;
    each_named(alloc, schema, to, &names)
}

// The columns of names, one name after the other.
fn each_named(
    alloc: Global,
    schema: &Schema,
    to: Option<TableNo>,
    names: &[&str],
) -> Result<GroupColumns, Failure<Fault>>
    ensures exact { Answers result (columns_of schema.now to (map (λ name. name.now) names.now)) }
    ensures fit { IfOk result (AllByRecursion (IsShownFor schema.now)) }
    ensures text { IfErr result IsTold }
{
    let mut made = Vec::new(alloc);
    for name in names {
        let mut more = columns_named(alloc, schema, to, name)?.into_vec();
        made.append(&mut more)?;
    }
    Ok(ListOf::from_vec(made))
}

// The columns that a name stands for.
fn columns_named(
    alloc: Global,
    schema: &Schema,
    to: Option<TableNo>,
    name: &str,
) -> Result<GroupColumns, Failure<Fault>>
    ensures exact { Answers result (columns_named schema.now to name.now) }
    ensures fit { IfOk result (AllByRecursion (IsShownFor schema.now)) }
    ensures text { IfErr result IsTold }
{
    if ALL == name {
        Ok(all_columns(alloc, schema, to)?)
    } else {
        one_column(alloc, schema, to, name)
    }
}

// The column that a name stands for which does not stand for all.
fn one_column(
    alloc: Global,
    schema: &Schema,
    to: Option<TableNo>,
    name: &str,
) -> Result<GroupColumns, Failure<Fault>>
    ensures exact { bytes_eq all_name name.now ≡ false → Answers result (columns_named schema.now to name.now) }
    ensures fit { IfOk result (AllByRecursion (IsShownFor schema.now)) }
    ensures text { IfErr result IsTold }
{
    let item = item_named(alloc, schema, to, name)?;
    let name = Bytes::from_slice(alloc, name.as_bytes())?;
    let column = GroupColumn { name, item };
    Ok(ListOf::from_vec(vec![in alloc; column]?))
}

// The data columns of the table that groups refer to.
fn all_columns(
    alloc: Global,
    schema: &Schema,
    to: Option<TableNo>,
) -> Result<GroupColumns, NoMemory>
    ensures exact { IfOk result (λ made. made ≡ all_columns schema.now to) }
    ensures fit { IfOk result (AllByRecursion (IsShownFor schema.now)) }
{
    match to {
        Some(table) => columns_at(alloc, schema, &data_columns(alloc, schema, table)?),
        None => Ok(ListOf::from_vec(Vec::new(alloc))),
    }
}

// Columns of records as those of groups.
fn columns_at(
    alloc: Global,
    schema: &Schema,
    columns: &OutColumns,
) -> Result<GroupColumns, NoMemory>
    requires { ArePrintable schema.now columns.now }
    ensures exact { IfOk result (λ made. made ≡ map column_at columns.now) }
    ensures fit { IfOk result (AllByRecursion (IsShownFor schema.now)) }
{
    let mut made = Vec::with_capacity(alloc, columns.as_slice().len())?;
    for column in columns.as_slice() {
        made.push(column_at(alloc, column)?)?;
    }
    Ok(ListOf::from_vec(made))
}

// A column of records as one of groups.
fn column_at(alloc: Global, column: &OutColumn) -> Result<GroupColumn, NoMemory>
    ensures { IfOk result (λ made. made ≡ column_at column.now) }
{
    Ok(GroupColumn {
        name: column.name.try_clone()?,
        item: shown_at(alloc, &column.item)?,
    })
}
