// Hits with the values of their keys beside them, each read once.
ghost use Rattle.std.specs.Prelude.{◌≡◌, map, drop, IfOk};
ghost use Rattle.gr_sort.specs.Inside.Rows.{first_worth, keyed, keyed_row, worth};

use crate::SortKey;
use crate::value::{Value, item_value};
use gr_base::{NoMemory, RecordId};
use gr_expr::Rows;
use std::alloc::Global;

/// A hit, and what each key reads at it.
#[derive(Drop)]
pub(crate) struct Row<'a> {
    /// The hit.
    pub hit: (RecordId, u32),
    /// The values, in the order of the keys.
    pub values: Vec<Option<Value<'a>>>,
}

/// A hit with what the keys read at it.
pub(crate) fn read<'a, R: Rows>(
    alloc: Global,
    rows: &'a R,
    keys: &[SortKey],
    hit: (RecordId, u32),
) -> Result<Row<'a>, NoMemory>
    ensures { IfOk result (λ row. keyed_row row ≡ keyed (R.tables rows.now) keys.now hit) }
{
    let mut values = Vec::with_capacity(alloc, keys.len())?;
    for key in keys {
        values.push(item_value(rows, hit, &key.item))?;
    }
    Ok(Row { hit, values })
}

/// The value of the key of this number, and no value where there is no such key.
pub(crate) fn value_at<'a>(row: &Row<'a>, at: usize) -> Option<Value<'a>>
    ensures { worth result ≡ first_worth (drop at (map worth row.now.values.items)) }
{
    match row.values.get(at) {
        Some(value) => *value,
        None => None,
    }
}
