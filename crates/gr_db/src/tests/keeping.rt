// Values as they are kept where no record is there.
use crate::{kept, new_index_wants};
use gr_base::{ColumnNo, ListOf, RecordId, TableNo};
use gr_expr::Rows;
use gr_schema::{Role, Schema};
use gr_values::{Cell, CellView, Field, Given, Key};
use std::test::Fail;

/// Tables without records.
struct NoRows;

impl Rows for NoRows {
    ghost use Rattle.std.specs.Prelude.{[]};

    ghost tables = { λ rows. [] };

    fn is_alive(&self, _table: TableNo, _id: RecordId) -> bool {
        false
    }

    fn key(&self, _table: TableNo, _id: RecordId) -> Option<&Key> {
        None
    }

    fn cell(&self, _table: TableNo, _id: RecordId, _column: ColumnNo) -> Option<CellView<'_>> {
        None
    }

    fn find(&self, _table: TableNo, _key: &Key) -> Option<RecordId> {
        None
    }

    fn last_id(&self, _table: TableNo) -> RecordId {
        RecordId(0)
    }
}

/// How many records a kept value refers to.
fn references(cell: &Cell) -> usize {
    match cell {
        Cell::RefList(ids) => ids.as_slice().len(),
        _ => 0,
    }
}

#[test]
fn references_are_kept_each(rt: HostRuntime) -> Result<(), Fail> {
    let alloc = rt.alloc();
    let keys = vec![in alloc; Key::Number(3), Key::Number(4)]?;
    let given = Given::RefList(ListOf::from_vec(keys));
    let cell = kept(alloc, &NoRows, Some(TableNo(1)), &given)?;
    assert_eq!(rt; references(&cell), 2);
    Ok(())
}

#[test]
fn a_new_index_wants_nothing_where_no_record_is(rt: HostRuntime) -> Result<(), Fail> {
    let alloc = rt.alloc();
    let role = Role::Index {
        target: TableNo(0),
        sources: ListOf::from_vec(vec![in alloc; Field::Key]?),
        position: false,
        section: false,
    };
    let index = (TableNo(1), ColumnNo(0));
    let wants = new_index_wants(alloc, &Schema::new(), &NoRows, index, &role)?;
    assert_eq!(rt; wants.len(), 0);
    Ok(())
}
