// The search: block by block where the rows have masks for the condition, and otherwise by a look at each record.
ghost use Rattle.std.specs.Prelude.{◌≡◌, IfOk, IfSome};
ghost use Rattle.gr_expr.specs.Fits.{Fits};
ghost use Rattle.gr_plan.specs.Scan.{scan};

use crate::Blocks;
use crate::pushed::push_block;
use crate::scan::looked;
use crate::scores::scores;
use gr_base::{NoMemory, TableNo};
use gr_columns::BLOCK_CELLS;
use gr_expr::Expr;
use gr_hits::HitList;
use std::alloc::Global;

/// The records of a table that a condition finds, by ascending id, with their scores. It takes room for the hits alone.
/// Comparisons of the table's own columns with whole numbers, and what `&&`, `||`, `&!` and `!` make of them, are read as masks of 64 records each; a block
/// without a hit is passed over, and no record is looked at. Any other condition looks at each record.
pub fn hits<B: Blocks>(
    alloc: Global,
    rows: &B,
    table: TableNo,
    condition: &Expr,
) -> Result<HitList, NoMemory>
    requires { Fits (B.tables rows.now) condition.now }
    ensures { IfOk result (λ hits. hits ≡ scan (B.tables rows.now) table condition.now) }
{
    match by_blocks(alloc, rows, table, condition)? {
        Some(hits) => Ok(hits),
        None => looked(alloc, rows, table, condition),
    }
}

// The hits by masks; none where a block has no scores by masks.
fn by_blocks<B: Blocks>(
    alloc: Global,
    rows: &B,
    table: TableNo,
    condition: &Expr,
) -> Result<Option<HitList>, NoMemory>
    requires { Fits (B.tables rows.now) condition.now }
    ensures { IfOk result (λ found. IfSome found (λ hits. hits ≡ scan (B.tables rows.now) table condition.now)) }
{
    let mut hits = HitList::new(alloc);
    for block in 0..rows.last_id(table).0 / BLOCK_CELLS + 1 {
        match scores(rows, table, block, condition) {
            Some(scores) => push_block(&mut hits, block, scores)?,
            None => return Ok(None),
        }
    }
    Ok(Some(hits))
}
