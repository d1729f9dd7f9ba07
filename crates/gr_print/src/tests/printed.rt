// Blocks of rows that are not there.
use crate::{OutColumn, OutItem, block};
use gr_base::{Bytes, ColumnNo, RecordId, TableNo};
use gr_expr::Rows;
use gr_schema::Schema;
use gr_values::{CellView, Key};
use std::test::Fail;

/// Tables without records.
pub(super) struct NoRows;

impl Rows for NoRows {
    ghost use Rattle.std.specs.Prelude.{[]};

    ghost tables = { λ rows. [] };

    fn is_alive(&self, _table: TableNo, _id: RecordId) -> bool {
        false
    }

    fn key(&self, _table: TableNo, _id: RecordId) -> Option<&Key> {
        None
    }

    fn cell(&self, _table: TableNo, _id: RecordId, _column: ColumnNo) -> Option<CellView<'_>> {
        None
    }

    fn find(&self, _table: TableNo, _key: &Key) -> Option<RecordId> {
        None
    }

    fn last_id(&self, _table: TableNo) -> RecordId {
        RecordId(0)
    }
}

#[test]
fn a_row_without_columns_is_empty(rt: HostRuntime) -> Result<(), Fail> {
    let text = block(
        rt.alloc(),
        &Schema::new(),
        &NoRows,
        &[],
        7,
        &[(RecordId(1), 3)],
    )?;
    assert_eq!(rt; text.as_text(), "[[7],[],[]]");
    Ok(())
}

#[test]
fn the_score_is_shown(rt: HostRuntime) -> Result<(), Fail> {
    let alloc = rt.alloc();
    let name = Bytes::from_string(alloc, String::from_str(alloc, "_score")?)?;
    let columns = [OutColumn {
        name,
        item: OutItem::Score,
    }];
    let hits = [(RecordId(1), 3), (RecordId(2), 4)];
    let text = block(alloc, &Schema::new(), &NoRows, &columns, 9, &hits)?;
    assert_eq!(rt; text.as_text(), "[[9],[[\"_score\",\"Int32\"]],[3],[4]]");
    Ok(())
}
