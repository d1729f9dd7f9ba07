// Each call that takes memory, once; what cells and masks are is in the clauses.
ghost use Rattle.std.specs.Prelude.{◌≡◌, false};

use super::{Column, Places, Truths};
use gr_base::{Cmp, NoMemory, RecordId, Steps};
use gr_values::{Cell, CellView, DataType, Key, Shape};
use std::alloc::Global;
use std::test::Fail;

fn plain(of: DataType) -> Shape
    ensures { result ≡ record { list = false; of = of; reference = false } }
{
    Shape {
        list: false,
        of,
        reference: false,
    }
}

fn number_at(column: &Column, id: u32) -> i128 {
    match column.get(RecordId(id)) {
        CellView::Int(number) => number,
        _ => -1,
    }
}

// A column of whole numbers with 7 at id 65 alone, the second of its block.
fn seven(alloc: Global) -> Result<Column, NoMemory> {
    let empty = Column::new(alloc, plain(DataType::Int8))?;
    empty.with_cell(alloc, RecordId(65), Cell::Int(7))
}

#[test]
fn a_number_stays_where_it_was_set(rt: HostRuntime) -> Result<(), Fail> {
    let column = seven(rt.alloc())?;
    assert_eq!(rt; number_at(&column, 65), 7);
    assert_eq!(rt; number_at(&column, 66), 0);
    Ok(())
}

#[test]
fn a_mask_shows_its_block(rt: HostRuntime) -> Result<(), Fail> {
    let column = seven(rt.alloc())?;
    assert_eq!(rt; column.scan_mask(1, Cmp::Eq, 7), Some(2));
    Ok(())
}

// The same column, changed in place.
fn seven_in_place(alloc: Global) -> Result<Column, NoMemory> {
    let mut column = Column::new(alloc, plain(DataType::Int8))?;
    column.set_cell(alloc, RecordId(65), Cell::Int(7))?;
    Ok(column)
}

#[test]
fn a_number_is_set_in_place(rt: HostRuntime) -> Result<(), Fail> {
    let column = seven_in_place(rt.alloc())?;
    assert_eq!(rt; number_at(&column, 65), 7);
    Ok(())
}

#[test]
fn a_cell_that_is_read_is_one_step(rt: HostRuntime) -> Result<(), Fail> {
    let column = seven(rt.alloc())?;
    let mut steps = Steps::new();
    column.cell(RecordId(65), &mut steps);
    assert_eq!(rt; steps.count(), 1);
    Ok(())
}

fn truths(alloc: Global) -> Result<Truths, NoMemory> {
    let mut truths = Truths::new(alloc)?;
    truths.set(alloc, 70, true)?;
    truths.try_clone()
}

#[test]
fn truths_stand_by_place(rt: HostRuntime) -> Result<(), Fail> {
    assert_eq!(rt; truths(rt.alloc())?.word(1), 1 << 6);
    Ok(())
}

fn keys(alloc: Global) -> Result<Places<Option<Key>>, NoMemory> {
    let mut keys = Places::new(alloc, None)?;
    keys.set(alloc, 70, Some(Key::Number(7)))?;
    keys.try_clone()
}

#[test]
fn keys_stand_by_place(rt: HostRuntime) -> Result<(), Fail> {
    let keys = keys(rt.alloc())?;
    assert!(rt; matches!(keys.get(70), Some(Key::Number(7))));
    Ok(())
}
