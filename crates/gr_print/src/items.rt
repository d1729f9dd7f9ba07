// What columns show of a hit, written as JSON.
ghost use Rattle.std.specs.Prelude.{◌≡◌, ◌∷◌, [], OnOk, Some, decimal};
ghost use Rattle.std.specs.List.{AllByRecursion};
ghost use Rattle.std.specs.Option.{option_and_then, option_copied, option_map, option_map_or};
ghost use Rattle.json.specs.Token.{number};
ghost use Rattle.gr_expr.specs.Fits.{FitsPath};
ghost use Rattle.gr_expr.specs.Paths.{end_table};
ghost use Rattle.gr_expr.specs.Tables.{cell_at, key_at};
ghost use Rattle.gr_values.specs.View.{shown};
ghost use Rattle.gr_print.specs.Fits.{FitsItem, IsPrintable};
ghost use Rattle.gr_print.specs.Inside.Tokens.{field_tokens, item_tokens, path_tokens, row_tokens};
ghost use Rattle.gr_print.specs.Inside.Legible.{AreKeysLegible};
ghost use Rattle.gr_print.specs.Shown.{given_of};
ghost use Rattle.gr_values.specs.Defaults.{default_of};
ghost use Rattle.gr_values.specs.Tokens.{Appends, given_tokens};
ghost use Rattle.gr_values.specs.declared.path.Field.TheVariants.{Column, Key as KeyField};

use crate::values::{close_array, open_array, write_cell, write_count, write_key};
use crate::{OutColumn, OutItem};
use gr_base::{ColumnNo, NoMemory, RecordId, TableNo};
use gr_expr::{Rows, end_of};
use gr_values::{Cell, CellView, Field, Key, Path};
use json::Writer;
use std::alloc::Global;

/// What columns show of a hit.
pub(crate) fn write_row<R: Rows>(
    writer: &mut Writer,
    alloc: Global,
    rows: &R,
    columns: &[OutColumn],
    hit: (RecordId, u32),
) -> Result<(), NoMemory>
    requires { AllByRecursion (IsPrintable (R.tables rows.now)) columns.now }
    ensures { OnOk result (Appends writer.old writer.new (row_tokens (R.tables rows.now) columns.now hit)) }
{
    open_array(writer)?;
    for column in columns {
        write_item(writer, alloc, rows, hit, &column.item)?;
    }
    close_array(writer)?;
    Ok(())
}

// What a column shows of a hit.
fn write_item<R: Rows>(
    writer: &mut Writer,
    alloc: Global,
    rows: &R,
    hit: (RecordId, u32),
    item: &OutItem,
) -> Result<(), NoMemory>
    requires { FitsItem (R.tables rows.now) item.now }
    ensures { OnOk result (Appends writer.old writer.new (item_tokens (R.tables rows.now) hit item.now)) }
{
    match item {
        OutItem::At(path) => write_path(writer, alloc, rows, hit.0, path),
        OutItem::Score => write_count(writer, u64::from(hit.1)),
    }
}

/// What stands at a path, read at a record.
pub fn write_path<R: Rows>(
    writer: &mut Writer,
    alloc: Global,
    rows: &R,
    id: RecordId,
    path: &Path,
) -> Result<(), NoMemory>
    requires { FitsPath (R.tables rows.now) path.now }
    ensures { OnOk result (Appends writer.old writer.new (path_tokens (R.tables rows.now) id path.now)) }
{
    write_field(writer, alloc, rows, end_of(rows, id, path), path)
}

// The field of the record at which a path ends.
fn write_field<R: Rows>(
    writer: &mut Writer,
    alloc: Global,
    rows: &R,
    end: Option<RecordId>,
    path: &Path,
) -> Result<(), NoMemory>
    requires { FitsPath (R.tables rows.now) path.now }
    ensures { OnOk result (Appends writer.old writer.new (field_tokens (R.tables rows.now) end path.now path.now.last)) }
{
    match path.last {
        Field::Id => write_id(writer, end),
        Field::Key => write_end_key(writer, rows, end, path),
        Field::Column(column) => write_column(writer, alloc, rows, end, path, column),
    }
}

// The id of a record, and 0 where there is none.
fn write_id(writer: &mut Writer, id: Option<RecordId>) -> Result<(), NoMemory>
    ensures { OnOk result (Appends writer.old writer.new (number (decimal (option_map_or (λ id. id.0) id 0)) ∷ [])) }
{
    match id {
        Some(id) => write_count(writer, u64::from(id.0)),
        None => write_count(writer, 0),
    }
}

// The key of the record at which a path ends.
fn write_end_key<R: Rows>(
    writer: &mut Writer,
    rows: &R,
    end: Option<RecordId>,
    path: &Path,
) -> Result<(), NoMemory>
    requires fits { FitsPath (R.tables rows.now) path.now }
    requires key { path.now.last ≡ KeyField }
    ensures { OnOk result (Appends writer.old writer.new (field_tokens (R.tables rows.now) end path.now KeyField)) }
{
    write_key(writer, end_key(rows, end, path), path.shape.of)
}

// That key.
fn end_key<'a, R: Rows>(rows: &'a R, end: Option<RecordId>, path: &Path) -> Option<&'a Key>
    ensures { option_copied result ≡ option_and_then (key_at (R.tables rows.now) (end_table path.now)) end }
{
    rows.key(end_table(path), end?)
}

// The cell at which a path ends, or the default of its shape.
fn write_column<R: Rows>(
    writer: &mut Writer,
    alloc: Global,
    rows: &R,
    end: Option<RecordId>,
    path: &Path,
    column: ColumnNo,
) -> Result<(), NoMemory>
    requires fits { FitsPath (R.tables rows.now) path.now }
    requires column { path.now.last ≡ Column column }
    ensures { OnOk result (Appends writer.old writer.new (field_tokens (R.tables rows.now) end path.now (Column column))) }
{
    match end_cell(rows, end, path, column) {
        Some(cell) => write_cell(writer, rows, cell, path.shape.of, path.to),
        None => write_default(writer, alloc, rows, path),
    }
}

// That cell.
fn end_cell<'a, R: Rows>(
    rows: &'a R,
    end: Option<RecordId>,
    path: &Path,
    column: ColumnNo,
) -> Option<CellView<'a>>
    ensures { option_map shown result ≡ option_and_then (λ end. cell_at (R.tables rows.now) (end_table path.now) end column) end }
{
    rows.cell(end_table(path), end?, column)
}

// The default of a path's shape.
fn write_default<R: Rows>(
    writer: &mut Writer,
    alloc: Global,
    rows: &R,
    path: &Path,
) -> Result<(), NoMemory>
    requires { AreKeysLegible (R.tables rows.now) path.now.to }
    ensures { OnOk result (Appends writer.old writer.new (given_tokens (Some path.now.shape.of) (given_of (R.tables rows.now) path.now.to (default_of path.now.shape)))) }
{
    let cell = Cell::default_of(alloc, path.shape)?;
    write_cell(writer, rows, cell.view(), path.shape.of, path.to)
}

// The table of the record at which a path ends.
fn end_table(path: &Path) -> TableNo
    ensures { result ≡ end_table path.now }
{
    match path.through.as_slice().last() {
        Some(hop) => hop.to,
        None => path.table,
    }
}
