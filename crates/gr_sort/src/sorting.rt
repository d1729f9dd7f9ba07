// Hits in the order of their keys.
ghost use Rattle.std.specs.Prelude.{◌≡◌, ◌-◌, ◌≤◌, IfOk, drop, length, map, take};
ghost use Rattle.std.specs.List.Sorted.{IsStrictlyIncreasing};
ghost use Rattle.gr_print.specs.Block.{hits_within};
ghost use Rattle.gr_sort.specs.Order.{ordered};

use crate::SortKey;
use crate::collect::{first_rows, sort};
use crate::row::Row;
use gr_base::{NoMemory, RecordId};
use gr_expr::Rows;
use gr_print::Span;
use std::alloc::Global;

/// The hits of a span, in the order of the keys; hits that no key tells apart go by ascending id. No value is below every value, false below true, numbers go as
/// numbers and texts by bytes; a descending key turns all of it round. It reads each key of each hit once, and sorts no more than twice the rows up to the end of
/// the span at a time.
pub fn sorted<R: Rows>(
    alloc: Global,
    rows: &R,
    keys: &[SortKey],
    hits: &[(RecordId, u32)],
    span: Span,
) -> Result<Vec<(RecordId, u32)>, NoMemory>
    requires { IsStrictlyIncreasing (map (λ hit. hit.0.0) hits.now) }
    ensures { IfOk result (λ shown. shown.items ≡ hits_within span (ordered (R.tables rows.now) keys.now hits.now)) }
{
    let end = span.first.saturating_add(span.count).min(hits.len() as u64);
    let first = span.first.min(end);
    if keys.is_empty() {
        return Ok(Vec::from_slice(alloc, &hits[first as usize..end as usize])?);
    }
    let mut kept = first_rows(alloc, rows, keys, hits, end as usize)?;
    sort(&mut kept, keys)?;
    hits_of(alloc, &kept, first as usize, end as usize)
}

// The hits of rows from a first one up to an end.
fn hits_of(
    alloc: Global,
    rows: &[Row<'_>],
    first: usize,
    end: usize,
) -> Result<Vec<(RecordId, u32)>, NoMemory>
    requires begins { first ≤ end }
    requires within { end ≤ length rows.now }
    ensures { IfOk result (λ hits. hits.items ≡ take (end - first) (drop first (map (λ row. row.hit) rows.now))) }
{
    let mut hits = Vec::with_capacity(alloc, end - first)?;
    for row in &rows[first..end] {
        hits.push(row.hit)?;
    }
    Ok(hits)
}
