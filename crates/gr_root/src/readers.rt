// What is read of a state block by block, and which of its records entries touched.
ghost use Rattle.std.specs.Prelude.{◌≡◌, ◌++◌, IfOk, IfSome, OnOk, drop, is_some, map};
ghost use Rattle.std.specs.List.{flat_map};
ghost use Rattle.gr_db.specs.Apply.{replay};
ghost use Rattle.gr_db.specs.Changed.{AreChanged};
ghost use Rattle.gr_expr.specs.Tables.{record_id};
ghost use Rattle.gr_root.specs.Inside.Touched.{AreOnce, numbers_in};
ghost use Rattle.gr_root.specs.Readers.{table_of_db};
ghost use Rattle.gr_table.specs.Masks.{IsRecordMask, is_whole_column};

use crate::Root;
use crate::make::Places;
use gr_base::{Cmp, ColumnNo, Ids, ListOf, NoMemory, RecordId, TableNo};
use gr_pvec::PVec;
use std::alloc::Global;

impl Root {
    /// Which records of a block of 64 ids are there and hold a number that compares so with `against`: bit i is that of the id 64 · block + i.
    /// `None` where the column does not hold one whole number of each record of the table. `against` may lie outside the type's range.
    pub fn mask(
        &self,
        table: TableNo,
        column: ColumnNo,
        block: u32,
        cmp: Cmp,
        against: i128,
    ) -> Option<u64>
        ensures whole { is_some result ≡ is_whole_column (table_of_db (replay self.now.journal) table).shapes column }
        ensures exact { IfSome result (IsRecordMask (table_of_db (replay self.now.journal) table) column block cmp against) }
    {
        match self.tables.get(table.0 as u64) {
            Some(found) => found.mask(column, block, cmp, against),
            None => None,
        }
    }

    /// The ids of a table's records that entries from this place of the journal on add, set a given cell in, or remove, each once, in ascending order. Of the
    /// entries before that place nothing is read.
    pub fn changed(&self, alloc: Global, table: TableNo, from: u64) -> Result<Ids, NoMemory>
        ensures { IfOk result (AreChanged self.now.journal table from) }
    {
        let numbers = numbers_touched(alloc, &self.touched, table, from)?;
        let numbers = once(numbers);
        ids_of(alloc, numbers.as_slice())
    }
}

// The numbers of a table's records among those from a place on, in their order.
fn numbers_touched(
    alloc: Global,
    touched: &PVec<Places>,
    table: TableNo,
    from: u64,
) -> Result<Vec<u32>, NoMemory>
    ensures { IfOk result (λ numbers. numbers.items ≡ flat_map (numbers_in table) (drop from touched.now)) }
{
    let mut numbers = Vec::new(alloc);
    for later in 0..touched.len().saturating_sub(from) {
        match touched.get(from + later) {
            Some(places) => push_numbers(&mut numbers, places.as_slice(), table)?,
            None => unreachable!(),
        }
    }
    Ok(numbers)
}

// Adds the numbers of those records that are of the table.
fn push_numbers(
    numbers: &mut Vec<u32>,
    places: &[(TableNo, RecordId)],
    table: TableNo,
) -> Result<(), NoMemory>
    ensures { OnOk result (numbers.new.items ≡ numbers.old.items ++ numbers_in table places.now) }
{
    for place in places {
        if place.0.0 == table.0 {
            numbers.push(place.1.0)?;
        }
    }
    Ok(())
}

// The numbers, ascending and each once.
fn once(mut numbers: Vec<u32>) -> Vec<u32>
    ensures { AreOnce numbers.items result.items }
{
    numbers.sort_unstable();
    numbers.dedup();
    numbers
}

// The ids of these numbers.
fn ids_of(alloc: Global, numbers: &[u32]) -> Result<Ids, NoMemory>
    ensures { IfOk result (λ ids. ids ≡ map record_id numbers.now) }
{
    let mut ids = Vec::new(alloc);
    for number in numbers {
        ids.push(RecordId(*number))?;
    }
    Ok(ListOf::from_vec(ids))
}
