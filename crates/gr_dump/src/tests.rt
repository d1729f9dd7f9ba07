// What no clause says: where there is memory, a database is dumped.
use crate::dump;
use gr_base::{ColumnNo, RecordId, TableNo};
use gr_expr::Rows;
use gr_schema::Schema;
use gr_values::{CellView, Key};
use std::test::Fail;

/// No tables.
struct NoTables;

impl Rows for NoTables {
    ghost use Rattle.std.specs.Prelude.{[]};

    ghost tables = { λ rows. [] };

    fn is_alive(&self, _table: TableNo, _id: RecordId) -> bool {
        false
    }

    fn key(&self, _table: TableNo, _id: RecordId) -> Option<&Key> {
        None
    }

    fn cell(&self, _table: TableNo, _id: RecordId, _column: ColumnNo) -> Option<CellView<'_>> {
        None
    }

    fn find(&self, _table: TableNo, _key: &Key) -> Option<RecordId> {
        None
    }

    fn last_id(&self, _table: TableNo) -> RecordId {
        RecordId(0)
    }
}

#[test]
fn a_dump_of_no_tables_is_empty(rt: HostRuntime) -> Result<(), Fail> {
    let schema = Schema::new();
    let text = dump(rt.alloc(), &schema, &NoTables)?;
    assert_eq!(rt; text.as_slice(), b"".as_slice());
    Ok(())
}
