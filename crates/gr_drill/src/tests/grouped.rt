// Groups of a small table, against what a person wrote down.
use crate::groups;
use gr_base::{ColumnNo, ListOf, NoMemory, RecordId, TableNo};
use gr_expr::{GroupKey, Rows};
use gr_values::{CellView, DataType, Field, Key, Path, Shape};
use std::alloc::Global;
use std::test::Fail;

/// One table without keys. The records 1 and 2 are there, and each refers to the same records in its one column.
struct Links {
    to: [RecordId; 4],
}

impl Rows for Links {
    ghost use Rattle.std.specs.Prelude.{[], ◌∷◌, None, Some};
    ghost use Rattle.gr_values.specs.declared.value.Cell.{Cell};

    ghost tables = { λ rows. (Some (record { key = None; cells = Some (Cell.RefList rows.to) ∷ [] }) ∷ Some (record { key = None; cells = Some (Cell.RefList rows.to) ∷ [] }) ∷ []) ∷ [] };

    fn is_alive(&self, table: TableNo, id: RecordId) -> bool {
        table.0 == 0 && (id.0 == 1 || id.0 == 2)
    }

    fn key(&self, _table: TableNo, _id: RecordId) -> Option<&Key> {
        None
    }

    fn cell(&self, table: TableNo, id: RecordId, column: ColumnNo) -> Option<CellView<'_>> {
        if column.0 == 0 && self.is_alive(table, id) {
            Some(CellView::RefList(&self.to))
        } else {
            None
        }
    }

    fn find(&self, _table: TableNo, _key: &Key) -> Option<RecordId> {
        None
    }

    fn last_id(&self, table: TableNo) -> RecordId {
        RecordId(if table.0 == 0 { 2 } else { 0 })
    }
}

const LINKS: Links = Links {
    to: [RecordId(2), RecordId(1), RecordId(2), RecordId(3)],
};

/// A field of the table.
fn path_to(alloc: Global, last: Field, shape: Shape, to: Option<TableNo>) -> Path {
    Path {
        table: TableNo(0),
        through: ListOf::from_vec(Vec::new(alloc)),
        last,
        shape,
        to,
    }
}

/// A text that is no reference.
const TEXT: Shape = Shape {
    list: false,
    of: DataType::ShortText,
    reference: false,
};

/// The record or the length of the text that a group has in common; none where it is something else.
fn shown(key: &GroupKey) -> Option<u64> {
    match key {
        GroupKey::Ref(_, id) => Some(u64::from(id.0)),
        GroupKey::Text(text) => Some(text.as_slice().len() as u64),
        GroupKey::Number(_) | GroupKey::Truth(_) => None,
    }
}

/// The groups of the hits 2, 1 and 2, each with its count.
fn found(alloc: Global, path: &Path) -> Result<Vec<(Option<u64>, u32)>, NoMemory> {
    let hits = [(RecordId(2), 1), (RecordId(1), 1), (RecordId(2), 1)];
    let mut found = Vec::new(alloc);
    for group in groups(alloc, &LINKS, &hits, path)?.as_slice() {
        found.push((shown(&group.key), group.count))?;
    }
    Ok(found)
}

#[test]
fn each_element_counts_and_no_dead_reference(rt: HostRuntime) -> Result<(), Fail> {
    let shape = Shape {
        list: true,
        of: DataType::ShortText,
        reference: true,
    };
    let path = path_to(
        rt.alloc(),
        Field::Column(ColumnNo(0)),
        shape,
        Some(TableNo(0)),
    );
    let found = found(rt.alloc(), &path)?;
    assert_eq!(rt; found.as_slice(), [(Some(2), 6), (Some(1), 3)].as_slice());
    Ok(())
}

#[test]
fn a_text_key_that_is_not_there_counts_as_the_empty_text(rt: HostRuntime) -> Result<(), Fail> {
    let found = found(rt.alloc(), &path_to(rt.alloc(), Field::Key, TEXT, None))?;
    assert_eq!(rt; found.as_slice(), [(Some(0), 3)].as_slice());
    Ok(())
}
