// What a drilldown asks for.
ghost use Rattle.std.specs.Prelude.{◌≡◌, true, is_some, map, IfErr, IfOk};
ghost use Rattle.std.specs.List.{AllByRecursion};
ghost use Rattle.std.specs.Option.{option_copied};
ghost use Rattle.gr_base.specs.Failure.{Answers};
ghost use Rattle.gr_db.specs.Db.{Db};
ghost use Rattle.gr_db.specs.Fitting.{IsFitting};
ghost use Rattle.gr_drill.specs.Drilldowns.{drilldown_of, drilldowns, drilldowns_of};
ghost use Rattle.gr_drill.specs.Fits.{IsShowable};
ghost use Rattle.gr_drill.specs.Inside.Fitting.{IsShowableFor};
ghost use Rattle.gr_schema.specs.Schema.{table_at};
ghost use Rattle.gr_schema.specs.Wishes.{IsTold};

use crate::columns::columns_shown;
use crate::names::listed;
use crate::order::order_of;
use gr_base::{Bytes, Failure, Fault, ListOf, TableNo};
use gr_schema::Schema;
use gr_values::Path;
use std::alloc::Global;

/// What is shown of a group.
#[derive(Drop)]
pub enum GroupItem {
    /// The value that its records have in common.
    Key,
    /// How many records it has.
    Count,
    /// The id of the record that it refers to; of any other group its number, from 1, by first appearance.
    Id,
    /// What stands at a path, read at the record that it refers to.
    At(Path),
}

/// A column of groups.
#[derive(Drop)]
pub struct GroupColumn {
    /// Its name, as it was asked for; UTF-8.
    pub name: Bytes,
    /// What it shows.
    pub item: GroupItem,
}

/// A key by which groups are sorted.
#[derive(Drop)]
pub struct GroupSortKey {
    /// What it reads: one value.
    pub item: GroupItem,
    /// Whether the highest value comes first.
    pub descending: bool,
}

/// Columns of groups, in order.
pub type GroupColumns = ListOf<GroupColumn>;

/// Keys by which groups are sorted, of which the first counts most.
pub type GroupOrder = ListOf<GroupSortKey>;

/// By what hits are grouped, and what is shown of the groups in which order.
#[derive(Drop)]
pub struct Drilldown {
    /// The path by whose value hits are grouped.
    pub key: Path,
    /// The columns.
    pub columns: GroupColumns,
    /// The order; groups that it does not tell apart stand by first appearance.
    pub order: GroupOrder,
}

/// Drilldowns, in order.
pub type Drilldowns = ListOf<Drilldown>;

/// The drilldowns that a list of keys asks for, with commas between them, each with these columns and this order, as `drilldown` of the Groonga reference manual has
/// them. A key is any path of the table. Columns are `_key`, `_nsubrecs` and `_id`; where the key's last column is a reference also the paths of the table that it
/// refers to, and `*` for all its data columns, which in any other drilldown stands for none. They are `_key` and `_nsubrecs` where none are given. Sort keys are such
/// names, but `*`, with `-` before them for the descending order, or `+`. A name that is none is `NoSuchColumn`, and a sort key that is a list `BadSortKey`. The first
/// fault is told: key by key, of its columns, then of its order.
pub fn drilldowns(
    alloc: Global,
    schema: &Schema,
    table: TableNo,
    keys: &str,
    columns: Option<&str>,
    order: Option<&str>,
) -> Result<Drilldowns, Failure<Fault>>
    requires { is_some (table_at schema.now table) ≡ true }
    ensures exact { Answers result (drilldowns schema.now table keys.now (option_copied columns.entry) (option_copied order.entry)) }
    ensures fit { (db : Db) → db.schema ≡ schema.now → IsFitting db → IfOk result (AllByRecursion (IsShowable db.tables)) }
    ensures text { IfErr result IsTold }
{
    let keys = listed(alloc, keys)?;
    each_drilldown(alloc, schema, table, &keys, columns, order)
}

// The drilldown of each key.
fn each_drilldown(
    alloc: Global,
    schema: &Schema,
    table: TableNo,
    keys: &[&str],
    columns: Option<&str>,
    order: Option<&str>,
) -> Result<Drilldowns, Failure<Fault>>
    requires { is_some (table_at schema.now table) ≡ true }
    ensures exact { Answers result (drilldowns_of schema.now table (option_copied columns.entry) (option_copied order.entry) (map (λ key. key.now) keys.now)) }
    ensures fit { IfOk result (AllByRecursion (IsShowableFor schema.now)) }
    ensures text { IfErr result IsTold }
{
    let mut made = Vec::new(alloc);
    for key in keys {
        made.push(drilldown_of(alloc, schema, table, key, columns, order)?)?;
    }
    Ok(ListOf::from_vec(made))
}

// The drilldown of a key.
fn drilldown_of(
    alloc: Global,
    schema: &Schema,
    table: TableNo,
    key: &str,
    columns: Option<&str>,
    order: Option<&str>,
) -> Result<Drilldown, Failure<Fault>>
    requires { is_some (table_at schema.now table) ≡ true }
    ensures exact { Answers result (drilldown_of schema.now table (option_copied columns.entry) (option_copied order.entry) key.now) }
    ensures fit { IfOk result (IsShowableFor schema.now) }
    ensures text { IfErr result IsTold }
{
    let key = schema.resolve(alloc, table, key.as_bytes())?;
    let columns = columns_shown(alloc, schema, key.to, columns)?;
    let order = order_of(alloc, schema, key.to, order)?;
    Ok(Drilldown {
        key,
        columns,
        order,
    })
}
