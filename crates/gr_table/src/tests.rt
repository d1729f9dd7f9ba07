// Each call that takes memory, once in each kind of table; what tables are is in the clauses.
ghost use Rattle.std.specs.Prelude.{◌≡◌, ◌∷◌, [], false, true, None, Some};
ghost use Rattle.gr_schema.specs.Sound.{has_keys};
ghost use Rattle.gr_values.specs.declared.data_type.DataType.{DataType};

use super::{TableRecords, Wanted};
use gr_base::{Bytes, Cmp, ColumnNo, Ids, NoMemory, RecordId};
use gr_schema::TableKind;
use gr_values::{Cell, DataType, Key, Shape};
use std::alloc::Global;
use std::test::Fail;

// A table of small numbers.
#[derive(Drop)]
struct Numbers {
    table: TableRecords,
    ghost keyed: { table.key ≡ Some DataType.UInt8 },
}

fn no_numbers(alloc: Global, kind: TableKind) -> Result<Numbers, NoMemory>
    requires { has_keys kind ≡ true }
{
    let table = TableRecords::new(alloc, kind, Some(DataType::UInt8))?;
    Ok(Numbers { table })
}

// The record of a number, of which two may be given.
fn want(alloc: Global, numbers: Numbers, number: u8) -> Result<(Numbers, Wanted), NoMemory> {
    let mut table = numbers.table;
    if table.given() > 2 {
        return Ok((Numbers { table }, Wanted::Full));
    }
    let wanted = table.want(alloc, Some(&Key::Number(i128::from(number))), 2)?;
    Ok((Numbers { table }, wanted))
}

// The answer where 5, 6 and then a number are wanted.
fn third(alloc: Global, kind: TableKind, number: u8) -> Result<Wanted, NoMemory>
    requires { has_keys kind ≡ true }
{
    let (one, _) = want(alloc, no_numbers(alloc, kind)?, 5)?;
    let (two, _) = want(alloc, one, 6)?;
    let (_, wanted) = want(alloc, two, number)?;
    Ok(wanted)
}

#[test]
fn a_key_that_is_there_is_found(rt: HostRuntime) -> Result<(), Fail> {
    assert_eq!(rt;
        third(rt.alloc(), TableKind::Hash, 6)?,
        Wanted::Found(RecordId(2))
    );
    Ok(())
}

#[test]
fn a_full_table_takes_no_third_key(rt: HostRuntime) -> Result<(), Fail> {
    assert_eq!(rt; third(rt.alloc(), TableKind::Pat, 7)?, Wanted::Full);
    Ok(())
}

// The table without a record.
fn without(alloc: Global, numbers: Numbers, id: u32) -> Result<Numbers, NoMemory> {
    let mut table = numbers.table;
    if table.is_alive(RecordId(id)) {
        table.remove(alloc, RecordId(id))?;
    }
    Ok(Numbers { table })
}

// The answer where a number is wanted again after its record was deleted.
fn again(alloc: Global) -> Result<Wanted, NoMemory> {
    let (one, _) = want(alloc, no_numbers(alloc, TableKind::Hash)?, 5)?;
    let none = without(alloc, one, 1)?;
    let (_, wanted) = want(alloc, none, 5)?;
    Ok(wanted)
}

#[test]
fn a_deleted_id_is_not_given_again(rt: HostRuntime) -> Result<(), Fail> {
    assert_eq!(rt; again(rt.alloc())?, Wanted::Added(RecordId(2)));
    Ok(())
}

// How many ids were given in a table that has a record, and in a copy that got another one.
fn copied(alloc: Global) -> Result<(u32, u32), NoMemory> {
    let (one, _) = want(alloc, no_numbers(alloc, TableKind::Pat)?, 5)?;
    let copy = one.table.try_clone()?;
    let (two, _) = want(alloc, Numbers { table: copy }, 6)?;
    Ok((one.table.given(), two.table.given()))
}

#[test]
fn a_changed_copy_leaves_the_table_as_it_was(rt: HostRuntime) -> Result<(), Fail> {
    assert_eq!(rt; copied(rt.alloc())?, (1, 2));
    Ok(())
}

// A table without keys and with a column of small numbers.
#[derive(Drop)]
struct Keyless {
    table: TableRecords,
    ghost keyless: { table.key ≡ None },
    ghost shaped: { table.shapes ≡ Some (record { list = false; of = DataType.Int8; reference = false }) ∷ [] },
}

fn no_keyless(alloc: Global) -> Result<Keyless, NoMemory> {
    let mut table = TableRecords::new(alloc, TableKind::NoKey, None)?;
    let shape = Shape {
        list: false,
        of: DataType::Int8,
        reference: false,
    };
    table.add_column(alloc, Some(shape))?;
    Ok(Keyless { table })
}

// The table with a record more.
fn with_one(alloc: Global, keyless: Keyless) -> Result<Keyless, NoMemory> {
    let mut table = keyless.table;
    if table.given() > 200 {
        return Ok(Keyless { table });
    }
    table.want(alloc, None, 200)?;
    Ok(Keyless { table })
}

// The table with 7 in a record's column.
fn with_seven(alloc: Global, keyless: Keyless, id: u32) -> Result<Keyless, NoMemory> {
    let mut table = keyless.table;
    if table.is_alive(RecordId(id)) {
        table.set(alloc, RecordId(id), ColumnNo(0), Cell::Int(7))?;
    }
    Ok(Keyless { table })
}

// Of 130 records 66 and 129 are deleted, and 65 holds 7, the others 0.
fn holed(alloc: Global) -> Result<TableRecords, NoMemory> {
    let mut keyless = no_keyless(alloc)?;
    for _ in 0..130 {
        keyless = with_one(alloc, keyless)?;
    }
    let mut table = with_seven(alloc, keyless, 65)?.table;
    for id in [66, 129] {
        if table.is_alive(RecordId(id)) {
            table.remove(alloc, RecordId(id))?;
        }
    }
    Ok(table)
}

#[test]
fn a_mask_shows_the_records_that_are_there(rt: HostRuntime) -> Result<(), Fail> {
    let table = holed(rt.alloc())?;
    assert_eq!(rt; table.mask(ColumnNo(0), 0, Cmp::Eq, 0), Some(u64::MAX - 1));
    assert_eq!(rt; table.mask(ColumnNo(0), 1, Cmp::Eq, 0), Some(u64::MAX - 6));
    assert_eq!(rt; table.mask(ColumnNo(0), 2, Cmp::Eq, 0), Some(5));
    Ok(())
}

// A table of short texts.
#[derive(Drop)]
struct Texts {
    table: TableRecords,
    ghost keyed: { table.key ≡ Some DataType.ShortText },
}

fn no_texts(alloc: Global, kind: TableKind) -> Result<Texts, NoMemory>
    requires { has_keys kind ≡ true }
{
    let table = TableRecords::new(alloc, kind, Some(DataType::ShortText))?;
    Ok(Texts { table })
}

// The table with the record of a short text of plain letters.
fn named(alloc: Global, texts: Texts, name: &str) -> Result<Texts, NoMemory> {
    let mut table = texts.table;
    if name.is_empty() || name.len() > 9 || table.given() > 200 {
        return Ok(Texts { table });
    }
    let key = Key::Text(Bytes::from_slice(alloc, name.as_bytes())?);
    table.want(alloc, Some(&key), 200)?;
    Ok(Texts { table })
}

// The ids of the names that begin with `an`.
fn begun(alloc: Global, kind: TableKind) -> Result<Ids, NoMemory>
    requires { has_keys kind ≡ true }
{
    let mut texts = no_texts(alloc, kind)?;
    for name in ["ant", "bee", "an", "newt"] {
        texts = named(alloc, texts, name)?;
    }
    texts.table.prefix(alloc, b"an")
}

#[test]
fn names_are_found_by_a_prefix(rt: HostRuntime) -> Result<(), Fail> {
    for kind in [TableKind::Hash, TableKind::Pat] {
        let ids = begun(rt.alloc(), kind)?;
        assert_eq!(rt; ids.as_slice(), [RecordId(1), RecordId(3)].as_slice());
    }
    Ok(())
}
