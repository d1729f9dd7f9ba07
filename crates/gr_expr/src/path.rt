// Where a path ends, and what stands there.
ghost use Rattle.std.specs.Prelude.{◌≡◌};
ghost use Rattle.std.specs.Option.{option_copied, option_map_or};
ghost use Rattle.gr_values.specs.Defaults.{default_of};
ghost use Rattle.gr_values.specs.View.{shown};
ghost use Rattle.gr_expr.specs.Paths.{cell_of_end, end_of, end_table, hop_end, hops_end, key_of_end, referred};

use crate::Rows;
use gr_base::{ColumnNo, RecordId, TableNo};
use gr_values::{CellView, Hop, Key, Path};

/// The record at which a path's last field is read. None where a reference on the way is empty or dead. It takes one look-up for each hop.
pub fn end_of<R: Rows>(rows: &R, id: RecordId, path: &Path) -> Option<RecordId>
    ensures { result ≡ end_of (R.tables rows.now) id path.now }
{
    hops_end(rows, path.table, id, path.through.as_slice())
}

fn hops_end<R: Rows>(rows: &R, table: TableNo, id: RecordId, hops: &[Hop]) -> Option<RecordId>
    ensures { result ≡ hops_end (R.tables rows.now) table hops.now id }
{
    let mut table = table;
    let mut end = id;
    for hop in hops {
        end = hop_end(rows, table, end, *hop)?;
        table = hop.to;
    }
    Some(end)
}

fn hop_end<R: Rows>(rows: &R, table: TableNo, id: RecordId, hop: Hop) -> Option<RecordId>
    ensures { result ≡ hop_end (R.tables rows.now) table id hop }
{
    match rows.cell(table, id, hop.column) {
        Some(CellView::Ref(to)) => referred(rows, hop.to, to),
        _ => None,
    }
}

/// The record that a reference is to, where it is there.
pub(crate) fn referred<R: Rows>(rows: &R, table: TableNo, id: RecordId) -> Option<RecordId>
    ensures { result ≡ referred (R.tables rows.now) table id }
{
    if rows.is_alive(table, id) {
        Some(id)
    } else {
        None
    }
}

// The table of the record at which a path ends.
fn end_table(path: &Path) -> TableNo
    ensures { result ≡ end_table path.now }
{
    match path.through.as_slice().last() {
        Some(hop) => hop.to,
        None => path.table,
    }
}

/// The key of the record at which a path ends.
pub(crate) fn key_of_end<'a, R: Rows>(rows: &'a R, id: RecordId, path: &Path) -> Option<&'a Key>
    ensures { option_copied result ≡ key_of_end (R.tables rows.now) id path.now }
{
    rows.key(end_table(path), end_of(rows, id, path)?)
}

/// The cell at which a path ends, and none where that is the default of its shape.
pub(crate) fn cell_of_end<'a, R: Rows>(
    rows: &'a R,
    id: RecordId,
    path: &Path,
    column: ColumnNo,
) -> Option<CellView<'a>>
    ensures { option_map_or shown result (default_of path.now.shape) ≡ cell_of_end (R.tables rows.now) id path.now column }
{
    rows.cell(end_table(path), end_of(rows, id, path)?, column)
}
