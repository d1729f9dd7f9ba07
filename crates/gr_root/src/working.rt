// Tables that an entry changes.
ghost use Rattle.std.specs.Prelude.{◌≡◌, ◌<◌, IfOk, OnOk, Some, length, slice_get, slice_set};
ghost use Rattle.std.specs.Option.{option_copied, option_map};
ghost use Rattle.gr_expr.specs.Tables.{cell_at, id_in, key_at, record_at, records_of};
ghost use Rattle.gr_root.specs.Inside.Working.{IsTaken, IsWithin, with_apart};
ghost use Rattle.gr_table.specs.Table.{TableOf};
ghost use Rattle.gr_values.specs.View.{shown};

use gr_base::{ColumnNo, NoMemory, RecordId, TableNo};
use gr_expr::Rows;
use gr_pvec::PVec;
use gr_table::TableRecords;
use gr_values::{CellView, Key};
use std::alloc::Global;
use std::marker::Model;
use std::sync::Arc;

/// The table that is being changed, apart from the others.
#[derive(Drop)]
pub(crate) struct Apart {
    at: TableNo,
    table: TableRecords,
}

/// The tables of a state, of which an entry changes some. The one that was changed last stands apart, so that the next change of it copies nothing but what others
/// own.
#[derive(Drop)]
pub(crate) struct WorkingTables {
    kept: PVec<TableRecords>,
    apart: Option<Apart>,
}

impl Model for WorkingTables {
    ghost use Rattle.std.specs.Prelude.{List};
    ghost use Rattle.gr_root.specs.Inside.Working.{IsWithin, with_apart};
    ghost use Rattle.gr_table.specs.Table.{TableOf};

    ghost Value = { List TableOf };

    ghost view = { λ tables. with_apart tables.apart tables.kept };

    ghost invariant = { λ tables. IsWithin tables.apart tables.kept };
}

impl WorkingTables {
    /// These tables.
    pub(crate) fn new(kept: PVec<TableRecords>) -> WorkingTables
        ensures { result ≡ kept }
    {
        WorkingTables { kept, apart: None }
    }

    /// The tables as they are now.
    pub(crate) fn into_kept(self, alloc: Global) -> Result<PVec<TableRecords>, NoMemory>
        ensures { IfOk result (λ kept. kept ≡ self) }
    {
        let mut kept = self.kept;
        put_back(alloc, &mut kept, self.apart)?;
        Ok(kept)
    }

    /// A table, lent.
    pub(crate) fn get(&self, table: TableNo) -> Option<&TableRecords>
        ensures { option_copied result ≡ slice_get self.now table.0 }
    {
        match &self.apart {
            Some(apart) if apart.at.0 == table.0 => Some(&apart.table),
            _ => self.kept.get(table.0 as u64),
        }
    }

    /// A table, to be changed and put back. It shares what it did not change with those who own it.
    pub(crate) fn take(&mut self, alloc: Global, table: TableNo) -> Result<TableRecords, NoMemory>
        requires { table.0 < length self.old }
        ensures { IfOk result (IsTaken self.old self.new table.0) }
    {
        match self.apart.take() {
            Some(apart) if apart.at.0 == table.0 => Ok(apart.table),
            apart => {
                put_back(alloc, &mut self.kept, apart)?;
                copied(&self.kept, table)
            }
        }
    }

    /// Puts a table back, or another in its place.
    pub(crate) fn put(
        &mut self,
        alloc: Global,
        at: TableNo,
        table: TableRecords,
    ) -> Result<(), NoMemory>
        requires { at.0 < length self.old }
        ensures { OnOk result (self.new ≡ slice_set self.old at.0 table) }
    {
        let apart = self.apart.take();
        put_back(alloc, &mut self.kept, apart)?;
        self.apart = Some(Apart { at, table });
        Ok(())
    }
}

// The table of this number.
fn copied(kept: &PVec<TableRecords>, table: TableNo) -> Result<TableRecords, NoMemory>
    requires { table.0 < length kept.now }
    ensures { IfOk result (λ copy. slice_get kept.now table.0 ≡ Some copy) }
{
    match kept.get(table.0 as u64) {
        Some(found) => found.try_clone(),
        None => unreachable!(),
    }
}

// Puts the table that stands apart, where there is one, back among the others.
fn put_back(
    alloc: Global,
    kept: &mut PVec<TableRecords>,
    apart: Option<Apart>,
) -> Result<(), NoMemory>
    requires { IsWithin apart kept.old }
    ensures { OnOk result (kept.new ≡ with_apart apart kept.old) }
{
    if let Some(apart) = apart {
        let shared = Arc::new(alloc, apart.table)?;
        kept.set(alloc, apart.at.0 as u64, shared)?;
    }
    Ok(())
}

impl Rows for WorkingTables {
    ghost use Rattle.gr_root.specs.Inside.Sound.{records_in};

    ghost tables = { records_in };

    fn is_alive(&self, table: TableNo, id: RecordId) -> bool {
        match self.get(table) {
            Some(found) => found.is_alive(id),
            None => false,
        }
    }

    fn key(&self, table: TableNo, id: RecordId) -> Option<&Key> {
        match self.get(table) {
            Some(found) => found.key(id),
            None => None,
        }
    }

    fn cell(&self, table: TableNo, id: RecordId, column: ColumnNo) -> Option<CellView<'_>> {
        match self.get(table) {
            Some(found) => found.cell(id, column),
            None => None,
        }
    }

    fn find(&self, table: TableNo, key: &Key) -> Option<RecordId> {
        match self.get(table) {
            Some(found) => found.find(key),
            None => None,
        }
    }

    fn last_id(&self, table: TableNo) -> RecordId {
        match self.get(table) {
            Some(found) => RecordId(found.given()),
            None => RecordId(0),
        }
    }
}
