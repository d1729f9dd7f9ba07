// Comparisons of a column with a number, a block at a time.
ghost use Rattle.std.specs.Prelude.{◌≡◌, ◌<◌, ◌≤◌, ◌+◌, ◌*◌, ◌^◌, ℕ, true, false, IfSome, Some};
ghost use Rattle.gr_columns.specs.declared.places.TheConstants.{BLOCK_CELLS};
ghost use Rattle.gr_expr.specs.Inside.Parts.{FitsTerm};
ghost use Rattle.gr_expr.specs.Score.{end_cmp, holds, is_between, worth_of};
ghost use Rattle.gr_expr.specs.declared.typed.Literal.{Literal};
ghost use Rattle.gr_expr.specs.declared.typed.Term.TheVariants as term;
ghost use Rattle.gr_plan.specs.Inside.Leaves.{ReadsColumn, turned};
ghost use Rattle.gr_plan.specs.Inside.Planes.{IsWhere};

use crate::Blocks;
use gr_base::{Cmp, ColumnNo, RecordId, TableNo};
use gr_columns::BLOCK_CELLS;
use gr_expr::{Literal, Rows, Term};
use gr_values::Field;

/// The records of a block that are there.
pub(crate) fn alive<R: Rows>(rows: &R, table: TableNo, block: u32) -> u64
    requires { BLOCK_CELLS * block + BLOCK_CELLS ≤ 2 ^ 32 }
    ensures { IsWhere (R.tables rows.now) table block (λ id. true) result }
{
    let mut mask = 0u64;
    for place in 0..BLOCK_CELLS {
        if rows.is_alive(table, RecordId(BLOCK_CELLS * block + place)) {
            mask |= 1 << place;
        }
    }
    mask
}

// The number that a term writes.
fn number_of(of: &Term) -> Option<i128>
    ensures { IfSome result (λ number. of.now ≡ term.Literal (Literal.Number number)) }
{
    match of {
        Term::Literal(Literal::Number(number)) => Some(*number),
        _ => None,
    }
}

// The column of the table itself that a term reads, where that holds no references.
fn column_of(table: TableNo, of: &Term) -> Option<ColumnNo>
    ensures { IfSome result (ReadsColumn table of.now) }
{
    match of {
        Term::Cell(path) => {
            if path.table.0 != table.0
                || !path.through.as_slice().is_empty()
                || path.shape.reference
            {
                return None;
            }
            match path.last {
                Field::Column(column) => Some(column),
                _ => None,
            }
        }
        _ => None,
    }
}

fn turned(cmp: Cmp) -> Cmp
    ensures { result ≡ turned cmp }
{
    match cmp {
        Cmp::Eq => Cmp::Eq,
        Cmp::Ne => Cmp::Ne,
        Cmp::Lt => Cmp::Gt,
        Cmp::Le => Cmp::Ge,
        Cmp::Gt => Cmp::Lt,
        Cmp::Ge => Cmp::Le,
    }
}

fn end_cmp(included: bool) -> Cmp
    ensures { result ≡ end_cmp included }
{
    if included { Cmp::Le } else { Cmp::Lt }
}

// The records of a block whose value of a term compares so with a number.
fn column_mask<B: Blocks>(
    rows: &B,
    table: TableNo,
    block: u32,
    of: &Term,
    cmp: Cmp,
    number: i128,
) -> Option<u64>
    requires { FitsTerm (B.tables rows.now) of.now }
    ensures { IfSome result (IsWhere (B.tables rows.now) table block (λ id. holds cmp (worth_of (B.tables rows.now) id of.now) (Some (Literal.Number number)))) }
{
    rows.mask(table, column_of(table, of)?, block, cmp, number)
}

/// The records of a block at which a comparison holds.
pub(crate) fn compared<B: Blocks>(
    rows: &B,
    table: TableNo,
    block: u32,
    cmp: Cmp,
    left: &Term,
    right: &Term,
) -> Option<u64>
    requires left { FitsTerm (B.tables rows.now) left.now }
    requires right { FitsTerm (B.tables rows.now) right.now }
    ensures { IfSome result (IsWhere (B.tables rows.now) table block (λ id. holds cmp (worth_of (B.tables rows.now) id left.now) (worth_of (B.tables rows.now) id right.now))) }
{
    match number_of(right) {
        Some(number) => column_mask(rows, table, block, left, cmp, number),
        None => column_mask(rows, table, block, right, turned(cmp), number_of(left)?),
    }
}

/// The records of a block at which a value lies between two ends.
pub(crate) fn between<B: Blocks>(
    rows: &B,
    table: TableNo,
    block: u32,
    middle: &Term,
    low: (&Term, bool),
    high: (&Term, bool),
) -> Option<u64>
    requires { FitsTerm (B.tables rows.now) middle.now }
    ensures { IfSome result (IsWhere (B.tables rows.now) table block (λ id. is_between (worth_of (B.tables rows.now) id middle.now) (worth_of (B.tables rows.now) id low.entry.0.now) low.entry.1 (worth_of (B.tables rows.now) id high.entry.0.now) high.entry.1)) }
{
    let least = number_of(low.0)?;
    let greatest = number_of(high.0)?;
    let above = column_mask(rows, table, block, middle, turned(end_cmp(low.1)), least)?;
    let below = column_mask(rows, table, block, middle, end_cmp(high.1), greatest)?;
    Some(above & below)
}
