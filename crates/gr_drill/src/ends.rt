// What stands where a path ends.
ghost use Rattle.std.specs.Prelude.{◌≡◌, pos};
ghost use Rattle.std.specs.Option.{option_copied, option_map_or};
ghost use Rattle.gr_expr.specs.Paths.{cell_of_end, end_of, end_table, key_of_end};
ghost use Rattle.gr_expr.specs.Values.{id_number};
ghost use Rattle.gr_values.specs.Defaults.{default_of};
ghost use Rattle.gr_values.specs.View.{shown};

use gr_base::{ColumnNo, RecordId, TableNo};
use gr_expr::{Rows, end_of};
use gr_values::{CellView, Key, Path};

// The table of the record at which a path ends.
fn end_table(path: &Path) -> TableNo
    ensures { result ≡ end_table path.now }
{
    match path.through.as_slice().last() {
        Some(hop) => hop.to,
        None => path.table,
    }
}

/// The id of the record at which a path ends, and 0 where it ends nowhere.
pub(crate) fn id_of_end<R: Rows>(rows: &R, id: RecordId, path: &Path) -> i128
    ensures { result ≡ option_map_or id_number (end_of (R.tables rows.now) id path.now) (pos 0) }
{
    match end_of(rows, id, path) {
        Some(end) => i128::from(end.0),
        None => 0,
    }
}

/// The key of the record at which a path ends.
pub(crate) fn key_of_end<'a, R: Rows>(rows: &'a R, id: RecordId, path: &Path) -> Option<&'a Key>
    ensures { option_copied result ≡ key_of_end (R.tables rows.now) id path.now }
{
    rows.key(end_table(path), end_of(rows, id, path)?)
}

/// The cell at which a path ends, and none where that is the default of its shape.
pub(crate) fn cell_of_end<'a, R: Rows>(
    rows: &'a R,
    id: RecordId,
    path: &Path,
    column: ColumnNo,
) -> Option<CellView<'a>>
    ensures { option_map_or shown result (default_of path.now.shape) ≡ cell_of_end (R.tables rows.now) id path.now column }
{
    rows.cell(end_table(path), end_of(rows, id, path)?, column)
}
