// What no clause says: that a search of a small table comes to what a person wrote down.
ghost use Rattle.std.specs.Prelude.{IfOk, List};
ghost use Rattle.gr_expr.specs.Fits.{Fits};
ghost use Rattle.gr_expr.specs.Tables.{Records};

use crate::{Blocks, hits};
use gr_base::{Cmp, ColumnNo, ListOf, NoMemory, RecordId, TableNo};
use gr_expr::{Expr, Join, JoinedExpr, Literal, Rows, Term};
use gr_values::{CellView, DataType, Field, Key, Path, Shape};
use sqlite_items::{Boxed, Items};
use std::alloc::Global;
use std::test::Fail;

/// One table, of which it is known which records are there. They have no key and no cells.
struct Marks {
    alive: [bool; 5],
}

impl Rows for Marks {
    ghost use Rattle.std.specs.Prelude.{[], ◌∷◌, if◌then◌else◌, None, Some, map};

    ghost tables = { λ rows. map (λ alive. if alive then Some (record { key = None; cells = [] }) else None) rows.alive ∷ [] };

    fn is_alive(&self, table: TableNo, id: RecordId) -> bool {
        if table.0 > 0 || id.0 == 0 {
            return false;
        }
        self.alive.get(id.0 as usize - 1).copied().unwrap_or(false)
    }

    fn key(&self, _table: TableNo, _id: RecordId) -> Option<&Key> {
        None
    }

    fn cell(&self, _table: TableNo, _id: RecordId, _column: ColumnNo) -> Option<CellView<'_>> {
        None
    }

    fn find(&self, _table: TableNo, _key: &Key) -> Option<RecordId> {
        None
    }

    fn last_id(&self, table: TableNo) -> RecordId {
        if table.0 == 0 {
            RecordId(self.alive.len() as u32)
        } else {
            RecordId(0)
        }
    }
}

impl Blocks for Marks {
    fn mask(
        &self,
        _table: TableNo,
        _column: ColumnNo,
        _block: u32,
        _cmp: Cmp,
        _against: i128,
    ) -> Option<u64> {
        None
    }
}

const MARKS: Marks = Marks {
    alive: [true, false, true, false, true],
};

/// The ids and scores that a condition finds in a table where the records 1, 3 and 5 are there.
fn found(alloc: Global, condition: &Expr) -> Result<Vec<(u32, u32)>, NoMemory>
    requires { (tables : List Records) → Fits tables condition.now }
{
    let hits = hits(alloc, &MARKS, TableNo(0), condition)?;
    let mut pairs = Vec::new(alloc);
    for hit in hits.as_slice() {
        pairs.push((hit.0.0, hit.1))?;
    }
    Ok(pairs)
}

/// `_id > 1`
fn after_the_first(alloc: Global) -> Expr
    ensures { (tables : List Records) → Fits tables result }
{
    let path = Path {
        table: TableNo(0),
        through: ListOf::from_vec(Vec::new(alloc)),
        last: Field::Id,
        shape: Shape {
            list: false,
            of: DataType::UInt32,
            reference: false,
        },
        to: None,
    };
    Expr::Compare(Cmp::Gt, Term::Cell(path), Term::Literal(Literal::Number(1)))
}

fn not(alloc: Global, of: Expr) -> Result<Expr, NoMemory>
    requires { (tables : List Records) → Fits tables of }
    ensures { IfOk result (λ made. (tables : List Records) → Fits tables made) }
{
    Ok(Expr::Not(Boxed::new(alloc, of)?))
}

/// Both conditions joined by `||`.
fn or(alloc: Global, first: Expr, of: Expr) -> Result<Expr, NoMemory>
    requires first { (tables : List Records) → Fits tables first }
    requires of { (tables : List Records) → Fits tables of }
    ensures { IfOk result (λ made. (tables : List Records) → Fits tables made) }
{
    let mut rest = Items::new(alloc);
    rest.push(JoinedExpr { join: Join::Or, of })?;
    Ok(Expr::Chain(Boxed::new(alloc, first)?, rest))
}

#[test]
fn each_record_that_is_there_is_found(rt: HostRuntime) -> Result<(), Fail> {
    let found = found(rt.alloc(), &Expr::All)?;
    assert_eq!(rt; found.as_slice(), [(1, 1), (3, 1), (5, 1)].as_slice());
    Ok(())
}

#[test]
fn no_record_is_found_where_nothing_holds(rt: HostRuntime) -> Result<(), Fail> {
    let found = found(rt.alloc(), &Expr::Truth(false))?;
    assert!(rt; found.is_empty());
    Ok(())
}

#[test]
fn the_rest_is_found_where_it_does_not_hold(rt: HostRuntime) -> Result<(), Fail> {
    let condition = not(rt.alloc(), after_the_first(rt.alloc()))?;
    let found = found(rt.alloc(), &condition)?;
    assert_eq!(rt; found.as_slice(), [(1, 1)].as_slice());
    Ok(())
}

#[test]
fn a_record_has_its_own_score(rt: HostRuntime) -> Result<(), Fail> {
    let condition = or(rt.alloc(), Expr::All, after_the_first(rt.alloc()))?;
    let found = found(rt.alloc(), &condition)?;
    assert_eq!(rt; found.as_slice(), [(1, 1), (3, 2), (5, 2)].as_slice());
    Ok(())
}
