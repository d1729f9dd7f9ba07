// What a key reads at a hit, lent.
ghost use Rattle.std.specs.Prelude.{◌≡◌, pos, List};
ghost use Rattle.std.specs.Option.{option_copied, option_map_or};
ghost use Rattle.gr_values.specs.Defaults.{default_of, plain_default};
ghost use Rattle.gr_values.specs.View.{shown};
ghost use Rattle.gr_expr.specs.Paths.{cell_of_end, end_of, end_table, key_of_end};
ghost use Rattle.gr_expr.specs.Tables.{Records};
ghost use Rattle.gr_expr.specs.Values.{cell_worth, id_number, key_or_none, key_worth, no_key, path_worth, referred_key};
ghost use Rattle.gr_sort.specs.Inside.Rows.{literal, worth};
ghost use Rattle.gr_sort.specs.Order.{item_worth};

use gr_base::{ColumnNo, RecordId, TableNo};
use gr_expr::{Rows, end_of};
use gr_print::OutItem;
use gr_values::{Cell, CellView, DataType, Field, Key, Path};

/// A value that is read at a hit, lent.
#[derive(Clone, Copy)]
pub enum Value<'a> {
    /// `true` or `false`.
    Truth(bool),
    /// A whole number.
    Number(i128),
    /// A text, which is UTF-8.
    Text(&'a [u8]),
}

/// The value at a path, or the score of the hit.
pub(crate) fn item_value<'a, R: Rows>(
    rows: &'a R,
    hit: (RecordId, u32),
    item: &OutItem,
) -> Option<Value<'a>>
    ensures { worth result ≡ item_worth (R.tables rows.now) hit item.now }
{
    match item {
        OutItem::At(path) => path_value(rows, hit.0, path),
        OutItem::Score => Some(Value::Number(i128::from(hit.1))),
    }
}

/// The value at a path, or no value.
pub fn path_value<'a, R: Rows>(rows: &'a R, id: RecordId, path: &Path) -> Option<Value<'a>>
    ensures { worth result ≡ path_worth (R.tables rows.now) id path.now }
{
    match path.last {
        Field::Id => Some(Value::Number(id_of_end(rows, id, path))),
        Field::Key => key_or_none(path.shape.of, key_of_end(rows, id, path)),
        Field::Column(column) => match cell_of_end(rows, id, path, column) {
            Some(cell) => cell_value(rows, path, cell),
            None => default_value(path),
        },
    }
}

// The id at which a path ends, and 0 where it ends nowhere.
fn id_of_end<R: Rows>(rows: &R, id: RecordId, path: &Path) -> i128
    ensures { result ≡ option_map_or id_number (end_of (R.tables rows.now) id path.now) (pos 0) }
{
    match end_of(rows, id, path) {
        Some(end) => i128::from(end.0),
        None => 0,
    }
}

// The table of the record at which a path ends.
fn end_table(path: &Path) -> TableNo
    ensures { result ≡ end_table path.now }
{
    match path.through.as_slice().last() {
        Some(hop) => hop.to,
        None => path.table,
    }
}

// The key of the record at which a path ends.
fn key_of_end<'a, R: Rows>(rows: &'a R, id: RecordId, path: &Path) -> Option<&'a Key>
    ensures { option_copied result ≡ key_of_end (R.tables rows.now) id path.now }
{
    rows.key(end_table(path), end_of(rows, id, path)?)
}

// The cell at which a path ends, and none where that is the default of its shape.
fn cell_of_end<'a, R: Rows>(
    rows: &'a R,
    id: RecordId,
    path: &Path,
    column: ColumnNo,
) -> Option<CellView<'a>>
    ensures { option_map_or shown result (default_of path.now.shape) ≡ cell_of_end (R.tables rows.now) id path.now column }
{
    rows.cell(end_table(path), end_of(rows, id, path)?, column)
}

// The key of the record that is referred to, where it is there.
fn referred_key<R: Rows>(rows: &R, to: Option<TableNo>, id: RecordId) -> Option<&Key>
    ensures { option_copied result ≡ referred_key (R.tables rows.now) to (Cell.Ref id) }
{
    let table = to?;
    if rows.is_alive(table, id) {
        rows.key(table, id)
    } else {
        None
    }
}

// What a cell of a path is worth.
fn cell_value<'a, R: Rows>(rows: &'a R, path: &Path, cell: CellView<'a>) -> Option<Value<'a>>
    ensures { worth result ≡ cell_worth (R.tables rows.now) path.now (shown cell.entry) }
{
    match cell {
        CellView::Bool(truth) => Some(Value::Truth(truth)),
        CellView::Int(number) => Some(Value::Number(number)),
        CellView::Text(text) => Some(Value::Text(text.as_slice())),
        CellView::Ref(id) => key_or_none(path.shape.of, referred_key(rows, path.to, id)),
        CellView::RefList(_) | CellView::IntList(_) | CellView::TextList(_) => None,
    }
}

fn key_or_none(of: DataType, key: Option<&Key>) -> Option<Value<'_>>
    ensures { worth result ≡ key_or_none of (option_copied key.entry) }
{
    match key {
        Some(key) => Some(key_value(key)),
        None => no_key(of),
    }
}

/// A key as a value.
pub fn key_value(key: &Key) -> Value<'_>
    ensures { literal result ≡ key_worth key.now }
{
    match key {
        Key::Number(number) => Value::Number(*number),
        Key::Text(text) => Value::Text(text.as_slice()),
    }
}

// What stands for a key that is not there.
fn no_key(of: DataType) -> Option<Value<'static>>
    ensures { worth result ≡ no_key of }
{
    if of.text_limit().is_some() {
        Some(Value::Text(b""))
    } else {
        None
    }
}

// What the default of a path's shape is worth.
fn default_value(path: &Path) -> Option<Value<'static>>
    ensures { (tables : List Records) → worth result ≡ cell_worth tables path.now (default_of path.now.shape) }
{
    if path.shape.list {
        None
    } else if path.shape.reference {
        no_key(path.shape.of)
    } else {
        plain_default(path.shape.of)
    }
}

// What the default of a type is worth.
fn plain_default(of: DataType) -> Option<Value<'static>>
    ensures { (tables : List Records) (path : Path) → worth result ≡ cell_worth tables path (plain_default of) }
{
    if of.is_bool() {
        Some(Value::Truth(false))
    } else if of.range().is_some() {
        Some(Value::Number(0))
    } else {
        Some(Value::Text(b""))
    }
}
