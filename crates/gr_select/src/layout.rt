// How hits are shown.
ghost use Rattle.std.specs.Prelude.{◌≡◌, [], true, IfErr, IfOk, Some, is_some, option_map};
ghost use Rattle.std.specs.List.{AllByRecursion};
ghost use Rattle.gr_base.specs.Failure.{Answers};
ghost use Rattle.gr_db.specs.Db.{Db};
ghost use Rattle.gr_db.specs.Fitting.{IsFitting};
ghost use Rattle.gr_drill.specs.Fits.{IsShowable};
ghost use Rattle.gr_print.specs.Fits.{IsPrintable};
ghost use Rattle.gr_schema.specs.Schema.{table_at};
ghost use Rattle.gr_schema.specs.Wishes.{IsTold, home_of};
ghost use Rattle.gr_schema.specs.declared.definition.TableDef.{TableDef};
ghost use Rattle.gr_select.specs.Inside.Layouts.{FitsLayout};
ghost use Rattle.gr_select.specs.Select.{groups_given, groups_of_keys, keys_given, layout_given, rows_given};

use crate::numbers::number_or;
use gr_base::{Failure, Fault, ListOf, SHOWN_ROWS, TableNo};
use gr_cmdline::{Args, Param};
use gr_drill::{Drilldowns, drilldowns};
use gr_print::{OutColumns, columns};
use gr_schema::Schema;
use gr_sort::{SortOrder, order};
use std::alloc::Global;

// In which order rows are shown, in which columns, and within which window.
#[derive(Drop)]
pub(crate) struct RowLayout {
    pub(crate) keys: SortOrder,
    pub(crate) columns: OutColumns,
    pub(crate) offset: i64,
    pub(crate) limit: i64,
}

// Which groups are shown, each within the same window.
#[derive(Drop)]
pub(crate) struct GroupLayout {
    pub(crate) drilldowns: Drilldowns,
    pub(crate) offset: i64,
    pub(crate) limit: i64,
}

// How hits are shown, as rows and in groups.
#[derive(Drop)]
pub(crate) struct Layout {
    pub(crate) rows: RowLayout,
    pub(crate) groups: GroupLayout,
}

// What is given of it, or the first fault: of the rows, then of the groups.
pub(crate) fn layout_given(
    alloc: Global,
    schema: &Schema,
    table: TableNo,
    args: &Args,
) -> Result<Layout, Failure<Fault>>
    requires { is_some (table_at schema.now table) ≡ true }
    ensures exact { (home : TableDef) → table_at schema.now table ≡ Some home → Answers result (layout_given schema.now (home_of table home) args.now.given) }
    ensures fit { (db : Db) → db.schema ≡ schema.now → IsFitting db → IfOk result (FitsLayout db.tables) }
    ensures text { IfErr result IsTold }
{
    let rows = rows_given(alloc, schema, table, args)?;
    let groups = groups_given(alloc, schema, table, args)?;
    Ok(Layout { rows, groups })
}

// How rows are to be shown, or the first fault: of the sort keys, the output columns, the offset and the limit.
fn rows_given(
    alloc: Global,
    schema: &Schema,
    table: TableNo,
    args: &Args,
) -> Result<RowLayout, Failure<Fault>>
    requires { is_some (table_at schema.now table) ≡ true }
    ensures exact { (home : TableDef) → table_at schema.now table ≡ Some home → Answers result (rows_given schema.now (home_of table home) args.now.given) }
    ensures fit { (db : Db) → db.schema ≡ schema.now → IsFitting db → IfOk result (λ layout. AllByRecursion (IsPrintable db.tables) layout.columns) }
    ensures text { IfErr result IsTold }
{
    let keys = keys_given(alloc, schema, table, args.get(Param::SortKeys))?;
    let columns = columns(alloc, schema, table, args.get(Param::OutputColumns))?;
    let offset = number_or(alloc, 0, args, Param::Offset)?;
    let limit = number_or(alloc, i64::from(SHOWN_ROWS), args, Param::Limit)?;
    Ok(RowLayout {
        keys,
        columns,
        offset,
        limit,
    })
}

// The sort keys, where they are given.
fn keys_given(
    alloc: Global,
    schema: &Schema,
    table: TableNo,
    text: Option<&str>,
) -> Result<SortOrder, Failure<Fault>>
    requires { is_some (table_at schema.now table) ≡ true }
    ensures exact { Answers result (keys_given schema.now table (option_map (λ text. text.now) text.entry)) }
    ensures text { IfErr result IsTold }
{
    match text {
        Some(text) => order(alloc, schema, table, text),
        None => Ok(ListOf::from_vec(Vec::new(alloc))),
    }
}

// How groups are to be shown, where a drilldown is given.
fn groups_given(
    alloc: Global,
    schema: &Schema,
    table: TableNo,
    args: &Args,
) -> Result<GroupLayout, Failure<Fault>>
    requires { is_some (table_at schema.now table) ≡ true }
    ensures exact { Answers result (groups_given schema.now table args.now.given) }
    ensures fit { (db : Db) → db.schema ≡ schema.now → IsFitting db → IfOk result (λ layout. AllByRecursion (IsShowable db.tables) layout.drilldowns) }
    ensures text { IfErr result IsTold }
{
    match args.get(Param::Drilldown) {
        Some(keys) => groups_of_keys(alloc, schema, table, args, keys),
        None => Ok(GroupLayout {
            drilldowns: ListOf::from_vec(Vec::new(alloc)),
            offset: 0,
            limit: 0,
        }),
    }
}

// How the groups of these keys are to be shown, or the first fault: of the keys, the offset and the limit.
fn groups_of_keys(
    alloc: Global,
    schema: &Schema,
    table: TableNo,
    args: &Args,
    keys: &str,
) -> Result<GroupLayout, Failure<Fault>>
    requires { is_some (table_at schema.now table) ≡ true }
    ensures exact { Answers result (groups_of_keys schema.now table args.now.given keys.now) }
    ensures fit { (db : Db) → db.schema ≡ schema.now → IsFitting db → IfOk result (λ layout. AllByRecursion (IsShowable db.tables) layout.drilldowns) }
    ensures text { IfErr result IsTold }
{
    let columns = args.get(Param::DrilldownOutputColumns);
    let order = args.get(Param::DrilldownSortKeys);
    let drilldowns = drilldowns(alloc, schema, table, keys, columns, order)?;
    let offset = number_or(alloc, 0, args, Param::DrilldownOffset)?;
    let limit = number_or(alloc, i64::from(SHOWN_ROWS), args, Param::DrilldownLimit)?;
    Ok(GroupLayout {
        drilldowns,
        offset,
        limit,
    })
}
