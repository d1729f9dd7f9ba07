// Rows that can be compared a block at a time.
ghost use Rattle.std.specs.Prelude.{IfSome};
ghost use Rattle.gr_plan.specs.Masks.{IsMask};

use gr_base::{Cmp, ColumnNo, TableNo};
use gr_expr::Rows;
use gr_root::Root;

/// Rows of which a column's whole numbers may be compared 64 at a time. No call takes memory.
pub trait Blocks: Rows {
    /// Which records of a block of 64 ids are there and hold a whole number that compares so with `against`: bit i is that of the id 64 · block + i.
    /// `None` is always allowed: each record is then looked at.
    fn mask(
        &self,
        table: TableNo,
        column: ColumnNo,
        block: u32,
        cmp: Cmp,
        against: i128,
    ) -> Option<u64>
        ensures { IfSome result (IsMask (Self.tables self.now) table column block cmp against) };
}

impl Blocks for Root {
    fn mask(
        &self,
        table: TableNo,
        column: ColumnNo,
        block: u32,
        cmp: Cmp,
        against: i128,
    ) -> Option<u64> {
        Root::mask(self, table, column, block, cmp, against)
    }
}
