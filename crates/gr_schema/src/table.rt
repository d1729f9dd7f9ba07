// A table of a schema, with its columns' names.
ghost use Rattle.std.specs.Prelude.{◌≡◌, ◌<◌, ◌^◌, [], None, IfOk, length};
ghost use Rattle.gr_schema.specs.Schema.{column_named, table_with};

use crate::names::Names;
use crate::{ColumnDef, TableDef};
use gr_base::{ColumnNo, NoMemory};
use std::alloc::Global;
use std::marker::Model;
use std::sync::Arc;

/// A table's definition. The names of its columns lead to their numbers.
#[derive(Drop)]
pub(crate) struct Table {
    def: TableDef,
    names: Names,
}

impl Model for Table {
    ghost use Rattle.std.specs.Prelude.{◌≤◌, ◌^◌, length};
    ghost use Rattle.gr_schema.specs.declared.definition.TableDef.{TableDef};
    ghost use Rattle.gr_schema.specs.Inside.Names.{IsNumbered};

    ghost Value = { TableDef };

    ghost view = { λ table. table.def };

    ghost invariant = { λ table.
        IsNumbered (λ column. column.name) table.names table.def.columns × (length table.def.columns ≤ 2 ^ 31) };
}

impl Table {
    /// A table without columns.
    pub(crate) fn new(def: TableDef) -> Table
        requires { def.columns ≡ [] }
        ensures { result ≡ def }
    {
        Table {
            def,
            names: Names::new(),
        }
    }

    /// The definition, lent.
    pub(crate) fn def(&self) -> &TableDef
        ensures { result.now ≡ self.now }
    {
        &self.def
    }

    /// The number of the column of this name.
    pub(crate) fn column(&self, name: &[u8]) -> Option<ColumnNo>
        ensures { result ≡ column_named self.now name.now }
    {
        Some(ColumnNo(self.names.find(name)?))
    }

    /// The table with one more column, which goes last.
    pub(crate) fn with(&self, alloc: Global, column: ColumnDef) -> Result<Table, NoMemory>
        requires new { column_named self.now column.name ≡ None }
        requires few { length self.now.columns < 2 ^ 31 }
        ensures { IfOk result (λ table. table ≡ table_with column self.now) }
    {
        let number = self.def.columns.len() as u32;
        let name = column.name.try_clone()?;
        let names = self.names.added(alloc, name, number)?;
        let shared = Arc::new(alloc, column)?;
        let columns = self.def.columns.pushed(alloc, shared)?;
        let def = TableDef {
            name: self.def.name.try_clone()?,
            kind: self.def.kind,
            key: self.def.key,
            tokenizer: self.def.tokenizer,
            columns,
        };
        Ok(Table { def, names })
    }
}
