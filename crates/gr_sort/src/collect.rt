// The first rows of all hits, kept while the hits are read.
ghost use Rattle.std.specs.Prelude.{◌≡◌, ◌++◌, ◌∷◌, [], false, true, IfOk, OnOk, map, take};
ghost use Rattle.std.specs.Ordering.{is_lt};
ghost use Rattle.gr_sort.specs.Inside.Kept.{IsKept};
ghost use Rattle.gr_sort.specs.Inside.Place.{last_of};
ghost use Rattle.gr_sort.specs.Inside.Rows.{keyed, keyed_cmp, keyed_row};
ghost use Rattle.gr_sort.specs.Order.{in_order};

use crate::SortKey;
use crate::compare::compare_rows;
use crate::row::{Row, read};
use gr_base::{NoMemory, RecordId};
use gr_expr::Rows;
use std::alloc::Global;

/// Rows that are kept at least before they are sorted and cut.
const LEAST_ROOM: usize = 64;

// Rows of which the first so many in order are those of all hits so far.
#[derive(Drop)]
struct Kept<'a> {
    rows: Vec<Row<'a>>,
    // Whether the first so many stand in front in their order, so that they bound what is still to come.
    is_cut: bool,
}

/// Rows of which the first so many in order are the first so many of all hits. At most twice as many are kept at a time, or `LEAST_ROOM`.
pub(crate) fn first_rows<'a, R: Rows>(
    alloc: Global,
    rows: &'a R,
    keys: &[SortKey],
    hits: &[(RecordId, u32)],
    most: usize,
) -> Result<Vec<Row<'a>>, NoMemory>
    ensures { IfOk result (λ kept. take most (in_order (keyed_cmp keys.now) (map keyed_row kept.items)) ≡ take most (in_order (keyed_cmp keys.now) (map (keyed (R.tables rows.now) keys.now) hits.now))) }
{
    let mut kept = Kept {
        rows: Vec::new(alloc),
        is_cut: false,
    };
    for hit in hits {
        kept = with_row(kept, keys, read(alloc, rows, keys, *hit)?, most)?;
    }
    Ok(kept.rows)
}

// The rows with one more, unless it is behind the first so many.
fn with_row<'a>(
    kept: Kept<'a>,
    keys: &[SortKey],
    row: Row<'a>,
    most: usize,
) -> Result<Kept<'a>, NoMemory>
    requires { IsKept keys.now most kept }
    ensures exact { IfOk result (λ more. take most (in_order (keyed_cmp keys.now) (map keyed_row more.rows.items)) ≡ take most (in_order (keyed_cmp keys.now) (map keyed_row kept.entry.rows.items ++ keyed_row row.entry ∷ []))) }
    ensures kept { IfOk result (IsKept keys.now most) }
{
    if kept.is_cut && is_late(keys, &kept.rows, &row, most) {
        Ok(kept)
    } else {
        with_early_row(kept, keys, row, most)
    }
}

// Whether a row does not come before the last of the first so many.
fn is_late(keys: &[SortKey], rows: &[Row<'_>], row: &Row<'_>, most: usize) -> bool
    ensures { result ≡ true → is_lt (keyed_cmp keys.now (keyed_row row.now) (last_of most (map keyed_row rows.now) (keyed_row row.now))) ≡ false }
{
    match rows.get(most.saturating_sub(1)) {
        Some(last) => compare_rows(keys, row, last).is_ge(),
        None => false,
    }
}

// The rows with one more, cut where there are twice as many as are asked for.
fn with_early_row<'a>(
    kept: Kept<'a>,
    keys: &[SortKey],
    row: Row<'a>,
    most: usize,
) -> Result<Kept<'a>, NoMemory>
    requires { IsKept keys.now most kept }
    ensures exact { IfOk result (λ more. take most (in_order (keyed_cmp keys.now) (map keyed_row more.rows.items)) ≡ take most (in_order (keyed_cmp keys.now) (map keyed_row kept.entry.rows.items ++ keyed_row row.entry ∷ []))) }
    ensures kept { IfOk result (IsKept keys.now most) }
{
    let mut more = kept;
    more.rows.push(row)?;
    if more.rows.len() < LEAST_ROOM || more.rows.len() / 2 < most {
        return Ok(more);
    }
    sort(&mut more.rows, keys)?;
    more.rows.truncate(most);
    more.is_cut = true;
    Ok(more)
}

/// Rows put in order.
pub(crate) fn sort(rows: &mut Vec<Row<'_>>, keys: &[SortKey]) -> Result<(), NoMemory>
    ensures { OnOk result (map keyed_row rows.new.items ≡ in_order (keyed_cmp keys.now) (map keyed_row rows.old.items)) }
{
    rows.sort_by(|left, right| compare_rows(keys, left, right))?;
    Ok(())
}
