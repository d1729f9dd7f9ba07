// Counting what stands at a path.
ghost use Rattle.std.specs.Prelude.{◌≡◌, OnOk};
ghost use Rattle.std.specs.Option.{option_copied, option_map};
ghost use Rattle.gr_drill.specs.Groups.{cell_keys, counted_at, value_key};
ghost use Rattle.gr_drill.specs.Inside.Lent.{lent};
ghost use Rattle.gr_drill.specs.Inside.Tally.{lent_groups, with_all};
ghost use Rattle.gr_expr.specs.Paths.{cell_of_end};
ghost use Rattle.gr_expr.specs.Values.{key_or_none, key_worth, no_key};

use crate::cells::{count_cell, default_key};
use crate::ends::{cell_of_end, id_of_end, key_of_end};
use crate::lent_key::LentKey;
use crate::tally::{Tally, count, count_some};
use gr_base::{ColumnNo, NoMemory, RecordId};
use gr_expr::Rows;
use gr_values::{DataType, Field, Key, Path};

/// Counts what stands at a path from a record.
pub(crate) fn count_record<'a, R: Rows>(
    tally: &mut Tally<'a>,
    rows: &'a R,
    id: RecordId,
    path: &Path,
) -> Result<(), NoMemory>
    ensures { OnOk result (lent_groups tally.new.entries ≡ with_all (lent_groups tally.old.entries) (counted_at (R.tables rows.now) id path.now)) }
{
    match path.last {
        Field::Id => count(tally, LentKey::Number(id_of_end(rows, id, path))),
        Field::Key => {
            let key = key_of_end(rows, id, path);
            count_some(tally, key_or_none(path.shape.of, key))
        }
        Field::Column(column) => count_column(tally, rows, id, path, column),
    }
}

fn count_column<'a, R: Rows>(
    tally: &mut Tally<'a>,
    rows: &'a R,
    id: RecordId,
    path: &Path,
    column: ColumnNo,
) -> Result<(), NoMemory>
    ensures { OnOk result (lent_groups tally.new.entries ≡ with_all (lent_groups tally.old.entries) (cell_keys (R.tables rows.now) path.now.to (cell_of_end (R.tables rows.now) id path.now column))) }
{
    match cell_of_end(rows, id, path, column) {
        Some(cell) => count_cell(tally, rows, path.to, cell),
        None => count_some(tally, default_key(path.shape)),
    }
}

// A key, where it is there.
fn key_or_none(of: DataType, key: Option<&Key>) -> Option<LentKey<'_>>
    ensures { option_map lent result ≡ option_map value_key (key_or_none of (option_copied key.entry)) }
{
    match key {
        Some(key) => Some(key_key(key)),
        None => no_key(of),
    }
}

fn key_key(key: &Key) -> LentKey<'_>
    ensures { lent result ≡ value_key (key_worth key.now) }
{
    match key {
        Key::Number(number) => LentKey::Number(*number),
        Key::Text(text) => LentKey::Text(text.as_slice()),
    }
}

// What stands for a key that is not there.
fn no_key(of: DataType) -> Option<LentKey<'static>>
    ensures { option_map lent result ≡ option_map value_key (no_key of) }
{
    if of.text_limit().is_some() {
        Some(LentKey::Text(b""))
    } else {
        None
    }
}
