// A column: cells of one shape by record id.
ghost use Rattle.std.specs.Prelude.{◌≡◌, ◌+◌, [], min, is_some, IfOk, OnOk, OnErr, IfSome};
ghost use Rattle.gr_values.specs.Types.{IsShape};
ghost use Rattle.gr_values.specs.View.{shown};
ghost use Rattle.gr_columns.specs.Cells.{cell_at, SetsCell};
ghost use Rattle.gr_values.specs.Fits.{IsCellOf};
ghost use Rattle.gr_columns.specs.Masks.{is_whole, IsBlockMask};

use crate::kept::Kept;
use crate::masks::{signed_mask, unsigned_mask};
use gr_base::{Cmp, NoMemory, RecordId, Steps};
use gr_values::{Cell, CellView, Shape};
use std::alloc::Global;
use std::marker::Model;

/// The cells of one shape by record id. An id that the column does not reach has the default of the shape. A changed copy shares all but one block
/// of `BLOCK_CELLS` cells and the path to it; the old column stays as it was. A whole number takes 8 bytes, a reference 4, a text 16 and what
/// does not stand in place, a list 8 and its elements, a truth value a bit; a block takes about 60 bytes more, and a block that was never set 8.
#[derive(Drop)]
pub struct Column {
    shape: Shape,
    kept: Kept,
}

impl Model for Column {
    ghost use Rattle.gr_columns.specs.Cells.{ColumnOf};

    ghost Value = { ColumnOf };

    ghost use Rattle.gr_columns.specs.Inside.Kept.{cells_of, IsKeptOf};

    ghost view = { λ column. record { shape = column.shape; cells = cells_of column.kept } };

    ghost invariant = { λ column. IsKeptOf column.shape column.kept };
}

impl Column {
    /// A column that reaches no id.
    pub fn new(alloc: Global, shape: Shape) -> Result<Column, NoMemory>
        requires { IsShape shape }
        ensures { IfOk result (λ made. made ≡ record { shape = shape; cells = [] }) }
    {
        let kept = Kept::new(alloc, shape)?;
        Ok(Column { shape, kept })
    }

    /// What each cell holds.
    pub fn shape(&self) -> Shape
        ensures { result ≡ self.now.shape }
    {
        self.shape
    }

    /// The cell of an id, lent, where no step is to be counted.
    pub fn get(&self, id: RecordId) -> CellView<'_>
        ensures exact { shown result ≡ cell_at self.now id }
        ensures fits { IsCellOf self.now.shape (cell_at self.now id) }
    {
        self.kept.get(id.0)
    }

    /// The cell of an id, lent, for one step.
    pub fn cell(&self, id: RecordId, steps: &mut Steps) -> CellView<'_>
        ensures exact { shown result ≡ cell_at self.now id }
        ensures fits { IsCellOf self.now.shape (cell_at self.now id) }
        ensures step { steps.new ≡ min (steps.old + 1) u64.MAX }
    {
        steps.tick();
        self.get(id)
    }

    /// The same column once more, which shares everything. It fails only where a count of owners is full.
    pub fn try_clone(&self) -> Result<Column, NoMemory>
        ensures { IfOk result (λ copy. copy ≡ self.now) }
    {
        Ok(Column {
            shape: self.shape,
            kept: self.kept.try_clone()?,
        })
    }

    /// The column with another cell at an id. Ids between the last that it reached and this one have the default. One block is copied and
    /// the path to it, and each block of 64 ids between takes 8 bytes.
    pub fn with_cell(&self, alloc: Global, id: RecordId, cell: Cell) -> Result<Column, NoMemory>
        requires { IsCellOf self.now.shape cell }
        ensures { IfOk result (λ made. SetsCell self.now made id cell) }
    {
        let mut made = self.try_clone()?;
        made.set_cell(alloc, id, cell)?;
        Ok(made)
    }

    /// Puts another cell at an id in place. One block is copied, and what has other owners on the way to it.
    pub fn set_cell(&mut self, alloc: Global, id: RecordId, cell: Cell) -> Result<(), NoMemory>
        requires { IsCellOf self.old.shape cell }
        ensures ok { OnOk result (SetsCell self.old self.new id cell) }
        ensures err { OnErr result (self.new ≡ self.old) }
    {
        self.kept.set(alloc, id.0, cell)
    }

    /// Which cells of a block compare so with `against`: bit i is that of the id `BLOCK_CELLS` · block + i. `None` where the cells are no whole
    /// numbers, one each. `against` may lie outside the type's range.
    pub fn scan_mask(&self, block: u32, cmp: Cmp, against: i128) -> Option<u64>
        ensures whole { is_some result ≡ is_whole self.now.shape }
        ensures exact { IfSome result (IsBlockMask self.now block cmp against) }
    {
        match &self.kept {
            Kept::Signed(numbers) => Some(signed_mask(numbers.block(block), cmp, against)),
            Kept::Unsigned(numbers) => Some(unsigned_mask(numbers.block(block), cmp, against)),
            _ => None,
        }
    }
}
