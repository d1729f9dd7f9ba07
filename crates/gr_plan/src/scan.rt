// Searching by a look at each record.
ghost use Rattle.std.specs.Prelude.{◌≡◌, IfOk};
ghost use Rattle.gr_expr.specs.Fits.{Fits};
ghost use Rattle.gr_plan.specs.Scan.{scan};

use gr_base::{NoMemory, RecordId, TableNo};
use gr_expr::{Expr, Rows, score};
use gr_hits::HitList;
use std::alloc::Global;

/// The records of a table that a condition finds, by ascending id, with their scores, by a look at each record.
pub(crate) fn looked<R: Rows>(
    alloc: Global,
    rows: &R,
    table: TableNo,
    condition: &Expr,
) -> Result<HitList, NoMemory>
    requires { Fits (R.tables rows.now) condition.now }
    ensures { IfOk result (λ hits. hits ≡ scan (R.tables rows.now) table condition.now) }
{
    let mut hits = HitList::new(alloc);
    for seen in 0..rows.last_id(table).0 {
        let id = RecordId(seen + 1);
        if rows.is_alive(table, id) {
            let score = score(rows, id, condition);
            if score > 0 {
                hits.push(id, score)?;
            }
        }
    }
    Ok(hits)
}
