// What names stand for in groups.
ghost use Rattle.std.specs.Prelude.{◌≡◌, Err, IfErr, IfOk};
ghost use Rattle.std.specs.Option.{ok_or};
ghost use Rattle.gr_base.specs.Failure.{Answers};
ghost use Rattle.gr_base.specs.Fault.{fault_named};
ghost use Rattle.gr_base.specs.declared.fault.FaultKind.TheVariants.{NoSuchColumn};
ghost use Rattle.gr_drill.specs.Drilldowns.{item_named, path_at, plain_item, shown_at};
ghost use Rattle.gr_drill.specs.Inside.Fitting.{FitsFor};
ghost use Rattle.gr_schema.specs.Wishes.{IsTold};

use crate::drilldown::GroupItem;
use gr_base::{Bytes, Failure, Fault, FaultKind, NoMemory, TableNo};
use gr_print::OutItem;
use gr_schema::Schema;
use gr_values::Path;
use std::alloc::Global;

const KEY: &str = "_key";

const COUNT: &str = "_nsubrecs";

const ID: &str = "_id";

/// What a name stands for in groups that refer to records of this table, or to none.
pub(crate) fn item_named(
    alloc: Global,
    schema: &Schema,
    to: Option<TableNo>,
    name: &str,
) -> Result<GroupItem, Failure<Fault>>
    ensures exact { Answers result (item_named schema.now to name.now) }
    ensures fit { IfOk result (FitsFor schema.now) }
    ensures text { IfErr result IsTold }
{
    match plain_item(name) {
        Some(item) => Ok(item),
        None => Ok(GroupItem::At(path_at(alloc, schema, to, name)?)),
    }
}

// What every group has under a name.
fn plain_item(name: &str) -> Option<GroupItem>
    ensures { result ≡ plain_item name.now }
{
    if KEY == name {
        Some(GroupItem::Key)
    } else if COUNT == name {
        Some(GroupItem::Count)
    } else if ID == name {
        Some(GroupItem::Id)
    } else {
        None
    }
}

// The path that a name writes from the table that groups refer to.
fn path_at(
    alloc: Global,
    schema: &Schema,
    to: Option<TableNo>,
    name: &str,
) -> Result<Path, Failure<Fault>>
    ensures exact { Answers result (ok_or (path_at schema.now to name.now) (fault_named NoSuchColumn name.now)) }
    ensures text { IfErr result IsTold }
{
    match to {
        Some(table) => match schema.def(table) {
            Some(_) => schema.resolve(alloc, table, name.as_bytes()),
            None => no_such_column(alloc, name),
        },
        None => no_such_column(alloc, name),
    }
}

// The fault of a name that stands for nothing.
fn no_such_column(alloc: Global, name: &str) -> Result<Path, Failure<Fault>>
    ensures exact { Answers result (Err (fault_named NoSuchColumn name.now)) }
    ensures text { IfErr result IsTold }
{
    let name = Bytes::from_slice(alloc, name.as_bytes())?;
    Err(Failure::Refused(Fault::named(FaultKind::NoSuchColumn, name)))
}

/// What a column of records shows, of groups: its path, or for the score the count.
pub(crate) fn shown_at(alloc: Global, item: &OutItem) -> Result<GroupItem, NoMemory>
    ensures { IfOk result (λ made. made ≡ shown_at item.now) }
{
    match item {
        OutItem::At(path) => Ok(GroupItem::At(path.try_clone(alloc)?)),
        OutItem::Score => Ok(GroupItem::Count),
    }
}
