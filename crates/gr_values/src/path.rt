// Paths from a record to a field, through references.
ghost use Rattle.std.specs.Prelude.{◌≡◌, IfOk};

use super::Shape;
use gr_base::{ColumnNo, ListOf, NoMemory, TableNo};
use std::alloc::Global;

/// A field of a record.
#[derive(Clone, Copy, Debug, PartialEq, Eq)]
pub enum Field {
    /// Its id.
    Id,
    /// Its key.
    Key,
    /// Its cell in this column.
    Column(ColumnNo),
}

/// A step from a record to the one that a cell refers to.
#[derive(Clone, Copy, Debug, PartialEq, Eq)]
pub struct Hop {
    /// The column of single references that is followed.
    pub column: ColumnNo,
    /// The table that it refers to.
    pub to: TableNo,
}

/// Steps, in order.
pub type Hops = ListOf<Hop>;

/// A field that is reached from a record through references.
#[derive(Drop)]
pub struct Path {
    /// The table in which it starts.
    pub table: TableNo,
    /// The references that are followed.
    pub through: Hops,
    /// The field of the last record.
    pub last: Field,
    /// The shape of that field.
    pub shape: Shape,
    /// The table that the last field refers to, where it is a reference.
    pub to: Option<TableNo>,
}

impl Path {
    /// The same path once more.
    pub fn try_clone(&self, alloc: Global) -> Result<Path, NoMemory>
        ensures { IfOk result (λ copy. copy ≡ self.now) }
    {
        let through = Vec::from_slice(alloc, self.through.as_slice())?;
        Ok(Path {
            table: self.table,
            through: ListOf::from_vec(through),
            last: self.last,
            shape: self.shape,
            to: self.to,
        })
    }
}
