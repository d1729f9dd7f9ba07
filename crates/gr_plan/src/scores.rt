// The scores that a condition has at the records of a block, from masks alone.
ghost use Rattle.std.specs.Prelude.{◌≡◌, ◌≤◌, ◌+◌, ◌*◌, ◌^◌, ℕ, IfSome, map};
ghost use Rattle.std.specs.List.{AllByRecursion};
ghost use Rattle.gr_base.specs.declared.numbers.RecordId.{RecordId};
ghost use Rattle.gr_columns.specs.declared.places.TheConstants.{BLOCK_CELLS};
ghost use Rattle.gr_expr.specs.Fits.{Fits};
ghost use Rattle.gr_expr.specs.Inside.Parts.{FitsJoined};
ghost use Rattle.gr_expr.specs.Score.{chain_score, joined, joined_of, score_of};
ghost use Rattle.gr_expr.specs.Seeks.{one_if};
ghost use Rattle.gr_plan.specs.Inside.Planes.{AreScores};

use crate::Blocks;
use crate::leaves::{alive, between, compared};
use crate::planes::{Planes, absent, joined, once};
use gr_base::TableNo;
use gr_expr::{Expr, JoinedExpr};

/// The scores at the records of a block. None where a part of the condition is no comparison that the rows have a mask for, or a score is above 15.
#[cycle(scores)]
pub(crate) fn scores<B: Blocks>(
    rows: &B,
    table: TableNo,
    block: u32,
    condition: &Expr,
) -> Option<Planes>
    requires fits { Fits (B.tables rows.now) condition.now }
    requires within { BLOCK_CELLS * block + BLOCK_CELLS ≤ 2 ^ 32 }
    ensures { IfSome result (AreScores (B.tables rows.now) table block (λ id. score_of (B.tables rows.now) id condition.now)) }
{
    match condition {
        Expr::All => Some(once(alive(rows, table, block))),
        Expr::Truth(truth) => Some(truths(rows, table, block, *truth)),
        Expr::Chain(first, rest) => {
            let first = scores(rows, table, block, first.get())?;
            chain(rows, table, block, first, rest.as_slice())
        }
        Expr::Not(of) => {
            let of = scores(rows, table, block, of.get())?;
            Some(absent(of, alive(rows, table, block)))
        }
        Expr::Compare(cmp, left, right) => {
            Some(once(compared(rows, table, block, *cmp, left, right)?))
        }
        Expr::Between(middle, low, with_low, high, with_high) => {
            let low = (low, *with_low);
            let high = (high, *with_high);
            Some(once(between(rows, table, block, middle, low, high)?))
        }
        _ => None,
    }
}

// The score 1 at each record where the truth is `true`.
fn truths<B: Blocks>(rows: &B, table: TableNo, block: u32, truth: bool) -> Planes
    requires { BLOCK_CELLS * block + BLOCK_CELLS ≤ 2 ^ 32 }
    ensures { AreScores (B.tables rows.now) table block (λ id. one_if truth) result }
{
    if truth {
        once(alive(rows, table, block))
    } else {
        once(0)
    }
}

// Scores joined with those before them, from left to right.
#[cycle(scores)]
fn chain<B: Blocks>(
    rows: &B,
    table: TableNo,
    block: u32,
    first: Planes,
    rest: &[JoinedExpr],
) -> Option<Planes>
    requires fits { AllByRecursion (FitsJoined (B.tables rows.now)) rest.now }
    requires within { BLOCK_CELLS * block + BLOCK_CELLS ≤ 2 ^ 32 }
    ensures { IfSome result (λ made. (score : RecordId → ℕ) → AreScores (B.tables rows.now) table block score first
        → AreScores (B.tables rows.now) table block (λ id. chain_score (score id) (map (joined_of (B.tables rows.now) id) rest.now)) made) }
{
    let mut all = first;
    for next in rest {
        all = next_scores(rows, table, block, all, next)?;
    }
    Some(all)
}

// Scores joined with those after them.
#[cycle(scores)]
fn next_scores<B: Blocks>(
    rows: &B,
    table: TableNo,
    block: u32,
    left: Planes,
    next: &JoinedExpr,
) -> Option<Planes>
    requires fits { FitsJoined (B.tables rows.now) next.now }
    requires within { BLOCK_CELLS * block + BLOCK_CELLS ≤ 2 ^ 32 }
    ensures { IfSome result (λ made. (score : RecordId → ℕ) → AreScores (B.tables rows.now) table block score left
        → AreScores (B.tables rows.now) table block (λ id. let right = joined_of (B.tables rows.now) id next.now in joined right.0 (score id) right.1) made) }
{
    let right = scores(rows, table, block, &next.of)?;
    joined(next.join, left, right)
}
