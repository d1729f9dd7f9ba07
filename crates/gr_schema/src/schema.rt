// The schema: its tables and its index columns, looked up by name and number.
ghost use Rattle.std.specs.Prelude.{◌≡◌, ◌<◌, ◌≤◌, ◌^◌, ◌++◌, ◌∷◌, [], IfOk, IfSome, length, if◌then◌else◌};
ghost use Rattle.std.specs.Option.{option_and_then, option_copied, option_map};
ghost use Rattle.gr_schema.specs.Inside.Held.{list_of};
ghost use Rattle.gr_schema.specs.Schema.{Extends, column_at, column_count, column_named, is_index, no_tables, table_at, table_named, with_column, with_table};
ghost use Rattle.gr_schema.specs.Sound.{IsSound};
ghost use Rattle.gr_schema.specs.Wishes.{IsColumnFor, IsTableFor, home_named, home_of};

use crate::names::Names;
use crate::table::Table;
use crate::{ColumnDef, Role, TableDef};
use gr_base::{ColumnNo, NoMemory, TableNo};
use gr_pvec::PVec;
use std::alloc::Global;
use std::marker::Model;
use std::sync::Arc;

/// The tables and their columns. A changed schema shares all that did not change with the old one, which stays as it was. Look-ups take no memory, and by name
/// they take a time that does not grow with the number of tables and columns.
#[derive(Drop)]
pub struct Schema {
    tables: PVec<Table>,
    names: Names,
    indexes: Option<Arc<Vec<(TableNo, ColumnNo)>>>,
}

impl Model for Schema {
    ghost use Rattle.gr_schema.specs.Schema.{SchemaDef};
    ghost use Rattle.gr_schema.specs.Inside.Held.{IsHeld, list_of};

    ghost Value = { SchemaDef };

    ghost view = { λ schema. record { tables = schema.tables; indexes = list_of schema.indexes } };

    ghost invariant = { λ schema.
        IsHeld schema.names (record { tables = schema.tables; indexes = list_of schema.indexes }) };
}

impl Schema {
    /// No tables; takes no memory.
    pub fn new() -> Schema
        ensures { result ≡ no_tables }
    {
        Schema {
            tables: PVec::new(),
            names: Names::new(),
            indexes: None,
        }
    }

    /// The number of the table of this name.
    pub fn table(&self, name: &[u8]) -> Option<TableNo>
        ensures { result ≡ table_named self.now name.now }
    {
        Some(TableNo(self.names.find(name)?))
    }

    /// How many tables there are.
    pub fn table_count(&self) -> u64
        ensures exact { result ≡ length self.now.tables }
        ensures few { length self.now.tables ≤ 2 ^ 31 }
    {
        self.tables.len()
    }

    /// How many columns a table has, data and index columns together; 0 where there is no such table.
    pub fn column_count(&self, table: TableNo) -> u64
        ensures { result ≡ column_count self.now table }
    {
        match self.def(table) {
            Some(def) => def.columns.len(),
            None => 0,
        }
    }

    /// The definition of a table, lent.
    pub fn def(&self, table: TableNo) -> Option<&TableDef>
        ensures { option_copied result ≡ table_at self.now table }
    {
        Some(self.tables.get(table.0 as u64)?.def())
    }

    /// The number of a table's column of this name, data and index columns together.
    pub fn column(&self, table: TableNo, name: &[u8]) -> Option<ColumnNo>
        ensures { result ≡ option_and_then (λ home. column_named home name.now) (table_at self.now table) }
    {
        self.tables.get(table.0 as u64)?.column(name)
    }

    /// The index columns in order of making, lent.
    pub fn indexes(&self) -> &[(TableNo, ColumnNo)]
        ensures exact { result.now ≡ self.now.indexes }
        ensures sound { IsSound self.now }
    {
        index_slice(&self.indexes)
    }

    // A table, with its columns' names.
    pub(crate) fn table_at(&self, table: TableNo) -> Option<&Table>
        ensures { option_copied result ≡ table_at self.now table }
    {
        self.tables.get(table.0 as u64)
    }

    // A column's definition.
    pub(crate) fn column_at(&self, table: TableNo, column: ColumnNo) -> Option<&ColumnDef>
        ensures exact { option_copied result ≡ column_at self.now table column }
        ensures sound { IsSound self.now }
    {
        let home = self.tables.get(table.0 as u64)?;
        home.def().columns.get(column.0 as u64)
    }

    // A table by its name.
    pub(crate) fn home(&self, name: &[u8]) -> Option<(TableNo, &Table)>
        ensures { option_map (λ found. home_of found.0 found.1.now) result ≡ home_named self.now name.now }
    {
        let table = self.table(name)?;
        Some((table, self.table_at(table)?))
    }

    /// The schema with one more table, which goes last. The table must be one that `check_table` gave on this schema.
    pub fn with_table(&self, alloc: Global, def: TableDef) -> Result<Schema, NoMemory>
        requires wished { IsTableFor self.now def }
        requires few { length self.now.tables < 2 ^ 31 }
        ensures exact { IfOk result (λ made. made ≡ with_table self.now def) }
        ensures extends { IfOk result (λ made. Extends made self.now) }
    {
        let number = self.tables.len() as u32;
        let name = def.name.try_clone()?;
        let names = self.names.added(alloc, name, number)?;
        let table = Table::new(def);
        let kept = Arc::new(alloc, table)?;
        let tables = self.tables.pushed(alloc, kept)?;
        let indexes = shared(&self.indexes)?;
        Ok(Schema {
            tables,
            names,
            indexes,
        })
    }

    /// The schema with one more column, which goes last in its table, and an index column also last among the index columns. Table and column must be a pair
    /// that `check_column` gave on this schema.
    pub fn with_column(
        &self,
        alloc: Global,
        table: TableNo,
        def: ColumnDef,
    ) -> Result<Schema, NoMemory>
        requires wished { IsColumnFor self.now table def }
        requires few { column_count self.now table < 2 ^ 31 }
        ensures exact { IfOk result (λ made. made ≡ with_column self.now table def) }
        ensures extends { IfOk result (λ made. Extends made self.now) }
    {
        let Some(home) = self.table_at(table) else {
            unreachable!()
        };
        let number = home.def().columns.len() as u32;
        let index = (table, ColumnNo(number));
        let indexes = with_index(alloc, &self.indexes, index, &def.role)?;
        let changed = home.with(alloc, def)?;
        let kept = Arc::new(alloc, changed)?;
        let tables = self.tables.with(alloc, table.0 as u64, kept)?;
        let names = self.names.try_clone()?;
        Ok(Schema {
            tables,
            names,
            indexes,
        })
    }
}

// Whether a column is an index.
fn is_index(role: &Role) -> bool
    ensures { result ≡ is_index role.now }
{
    match role {
        Role::Scalar(_) | Role::Vector(_) => false,
        Role::Index { .. } => true,
    }
}

// The index columns.
fn index_slice(indexes: &Option<Arc<Vec<(TableNo, ColumnNo)>>>) -> &[(TableNo, ColumnNo)]
    ensures { result.now ≡ list_of indexes.now }
{
    match indexes {
        Some(indexes) => indexes.as_slice(),
        None => &[],
    }
}

// One more owner of the index columns.
fn shared(
    indexes: &Option<Arc<Vec<(TableNo, ColumnNo)>>>,
) -> Result<Option<Arc<Vec<(TableNo, ColumnNo)>>>, NoMemory>
    ensures { IfOk result (λ copy. list_of copy ≡ list_of indexes.now) }
{
    match indexes {
        Some(indexes) => Ok(Some(Arc::try_clone(indexes)?)),
        None => Ok(None),
    }
}

// The index columns, and this column where it is one.
fn with_index(
    alloc: Global,
    indexes: &Option<Arc<Vec<(TableNo, ColumnNo)>>>,
    column: (TableNo, ColumnNo),
    role: &Role,
) -> Result<Option<Arc<Vec<(TableNo, ColumnNo)>>>, NoMemory>
    ensures { IfOk result (λ made. list_of made ≡ list_of indexes.now ++ (if is_index role.now then column ∷ [] else [])) }
{
    if is_index(role) {
        pushed(alloc, indexes, column)
    } else {
        shared(indexes)
    }
}

// The index columns and one more.
fn pushed(
    alloc: Global,
    indexes: &Option<Arc<Vec<(TableNo, ColumnNo)>>>,
    index: (TableNo, ColumnNo),
) -> Result<Option<Arc<Vec<(TableNo, ColumnNo)>>>, NoMemory>
    ensures { IfOk result (λ made. list_of made ≡ list_of indexes.now ++ index ∷ []) }
{
    let mut made = Vec::from_slice(alloc, index_slice(indexes))?;
    made.push(index)?;
    Ok(Some(Arc::new(alloc, made)?))
}
