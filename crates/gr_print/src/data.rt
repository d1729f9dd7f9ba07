// The data columns of a table.
ghost use Rattle.std.specs.Prelude.{◌≡◌, true, ℕ, is_some, slice_get, IfOk, IsUtf8, Some};
ghost use Rattle.gr_db.specs.Db.{role_shape};
ghost use Rattle.gr_print.specs.Columns.{data_column, data_columns};
ghost use Rattle.gr_print.specs.Inside.Named.{ArePrintable};
ghost use Rattle.gr_schema.specs.Schema.{column_named, column_no, table_at};
ghost use Rattle.gr_schema.specs.declared.definition.TableDef.{TableDef};

use crate::{OutColumn, OutColumns, OutItem};
use gr_base::{ColumnNo, ListOf, NoMemory, TableNo};
use gr_db::{column_target, shape_of};
use gr_schema::{ColumnDef, Schema};
use gr_values::{Field, Path};
use std::alloc::Global;

/// The data columns of a table, in order of making.
pub fn data_columns(alloc: Global, schema: &Schema, table: TableNo) -> Result<OutColumns, NoMemory>
    ensures exact { IfOk result (λ columns. columns ≡ data_columns schema.now table) }
    ensures fit { IfOk result (ArePrintable schema.now) }
{
    let mut made = Vec::new(alloc);
    let _sound = schema.indexes();
    if let Some(home) = schema.def(table) {
        for def in home.columns.iter(0, home.columns.len()) {
            if let Some(column) = data_column(alloc, schema, table, def)? {
                made.push(column)?;
            }
        }
    }
    Ok(ListOf::from_vec(made))
}

// A column, where it holds data.
fn data_column(
    alloc: Global,
    schema: &Schema,
    table: TableNo,
    def: &ColumnDef,
) -> Result<Option<OutColumn>, NoMemory>
    ensures { (home : TableDef) (n : ℕ) → table_at schema.now table ≡ Some home → slice_get home.columns n ≡ Some def.now
        → column_named home def.now.name ≡ Some (column_no n) → IfOk result (λ made. made ≡ data_column schema.now table n def.now) }
{
    let Some(column) = schema.column(table, def.name.as_slice()) else {
        return Ok(None);
    };
    let Some(shape) = shape_of(schema, &def.role) else {
        return Ok(None);
    };
    let to = column_target(schema, table, column);
    let path = Path {
        table,
        through: ListOf::from_vec(Vec::new(alloc)),
        last: Field::Column(column),
        shape,
        to,
    };
    Ok(Some(OutColumn {
        name: def.name.try_clone()?,
        item: OutItem::At(path),
    }))
}
