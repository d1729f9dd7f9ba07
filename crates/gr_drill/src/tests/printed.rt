// Blocks of groups by their ids.
ghost use Rattle.std.specs.Prelude.{[], IfOk};
ghost use Rattle.gr_drill.specs.Fits.{FitsItem, IsShowable, IsShown};
ghost use Rattle.gr_expr.specs.Fits.{FitsPath};

use crate::{Drilldown, GroupColumn, GroupItem, GroupSortKey, group_block};
use gr_base::{Bytes, ColumnNo, ListOf, NoMemory, RecordId, TableNo};
use gr_expr::Rows;
use gr_schema::Schema;
use gr_values::{CellView, DataType, Field, Key, Path, Shape};
use std::alloc::Global;
use std::test::Fail;

/// Tables without records.
struct NoRows;

impl Rows for NoRows {
    ghost use Rattle.std.specs.Prelude.{[]};

    ghost tables = { λ rows. [] };

    fn is_alive(&self, _table: TableNo, _id: RecordId) -> bool {
        false
    }

    fn key(&self, _table: TableNo, _id: RecordId) -> Option<&Key> {
        None
    }

    fn cell(&self, _table: TableNo, _id: RecordId, _column: ColumnNo) -> Option<CellView<'_>> {
        None
    }

    fn find(&self, _table: TableNo, _key: &Key) -> Option<RecordId> {
        None
    }

    fn last_id(&self, _table: TableNo) -> RecordId {
        RecordId(0)
    }
}

/// A column under a name.
fn column(alloc: Global, name: &str, item: GroupItem) -> Result<GroupColumn, NoMemory>
    requires { FitsItem [] item }
    ensures { IfOk result (IsShown []) }
{
    let name = Bytes::from_string(alloc, String::from_str(alloc, name)?)?;
    Ok(GroupColumn { name, item })
}

/// The id of a record.
fn id(alloc: Global) -> Path
    ensures { FitsPath [] result }
{
    Path {
        table: TableNo(0),
        through: ListOf::from_vec(Vec::new(alloc)),
        last: Field::Id,
        shape: Shape {
            list: false,
            of: DataType::UInt32,
            reference: false,
        },
        to: None,
    }
}

/// Groups by the ids of hits, of which the lowest comes first.
fn by_id(alloc: Global) -> Result<Drilldown, NoMemory>
    ensures { IfOk result (IsShowable []) }
{
    let number = column(alloc, "_id", GroupItem::Id)?;
    let key = column(alloc, "_key", GroupItem::Key)?;
    let lowest = GroupSortKey {
        item: GroupItem::Key,
        descending: false,
    };
    Ok(Drilldown {
        key: id(alloc),
        columns: ListOf::from_vec(vec![in alloc; number, key]?),
        order: ListOf::from_vec(vec![in alloc; lowest]?),
    })
}

#[test]
fn groups_keep_their_numbers_and_all_are_counted(rt: HostRuntime) -> Result<(), Fail> {
    let alloc = rt.alloc();
    let hits = [(RecordId(3), 1), (RecordId(1), 1), (RecordId(2), 1)];
    let text = group_block(alloc, &Schema::new(), &NoRows, &hits, &by_id(alloc)?, 0, 2)?;
    let wanted = "[[3],[[\"_id\",\"UInt32\"],[\"_key\",\"UInt32\"]],[2,1],[3,2]]";
    assert_eq!(rt; text.as_slice(), wanted.as_bytes());
    Ok(())
}
