// Wants, one after the other: each finds its record, or adds it.
ghost use Rattle.std.specs.Prelude.{◌≡◌, true, IfErr, IfOk, is_some};
ghost use Rattle.std.specs.List.{AllByRecursion};
ghost use Rattle.std.specs.Option.{option_copied};
ghost use Rattle.gr_root.specs.Inside.Sound.{AreFormed, AreWithin};
ghost use Rattle.gr_root.specs.Inside.Walk.{AnswersWantIn, IsFullFault, IsPlace, IsEnded, IsWalked, IsWantFor, Steps};
ghost use Rattle.gr_schema.specs.Schema.{table_at};
ghost use Rattle.gr_schema.specs.Sound.{IsSound};

use crate::working::WorkingTables;
use gr_base::{Failure, Fault, FaultKind, NoMemory, TableNo};
use gr_db::{Added, Want};
use gr_schema::Schema;
use gr_table::Wanted;
use gr_values::Key;
use std::alloc::Global;

/// Finds or adds the records that are wanted, and tells those that it added. The first table that is full ends it.
pub(crate) fn walk(
    alloc: Global,
    schema: &Schema,
    limit: u32,
    tables: &mut WorkingTables,
    wants: &[Want],
) -> Result<Vec<Added>, Failure<Fault>>
    requires sound { IsSound schema.now }
    requires formed { AreFormed schema.now tables.old }
    requires within { AreWithin limit tables.old }
    requires fit { AllByRecursion (IsWantFor schema.now) wants.now }
    ensures walked { IfOk result (λ news. IsWalked limit schema.now tables.old tables.new wants.now news.items) }
    ensures ended { IfErr result (IsEnded limit schema.now tables.old wants.now) }
{
    let mut added = Vec::new(alloc);
    for want in wants {
        if let Err(failure) = step(alloc, schema, limit, tables, want, &mut added) {
            return Err(failure);
        }
    }
    Ok(added)
}

// Finds or adds one record.
fn step(
    alloc: Global,
    schema: &Schema,
    limit: u32,
    tables: &mut WorkingTables,
    want: &Want,
    added: &mut Vec<Added>,
) -> Result<(), Failure<Fault>>
    requires sound { IsSound schema.now }
    requires formed { AreFormed schema.now tables.old }
    requires within { AreWithin limit tables.old }
    requires fit { IsWantFor schema.now want.now }
    ensures { Steps limit schema.now tables.old tables.new want.now added.old.items added.new.items result }
{
    match find_or_add(alloc, tables, want, limit)? {
        Wanted::Found(_) => Ok(()),
        Wanted::Added(id) => {
            let want = copied(want)?;
            added.push(Added { want, id })?;
            Ok(())
        }
        Wanted::Full => Err(Failure::Refused(full_fault(schema, want.table)?)),
    }
}

// Finds or adds a record in its table.
fn find_or_add(
    alloc: Global,
    tables: &mut WorkingTables,
    want: &Want,
    limit: u32,
) -> Result<Wanted, NoMemory>
    requires { IsPlace limit tables.old want.now }
    ensures { AnswersWantIn limit tables.old tables.new want.now result }
{
    let mut table = tables.take(alloc, want.table)?;
    let wanted = table.want(alloc, lent(&want.key), limit)?;
    tables.put(alloc, want.table, table)?;
    Ok(wanted)
}

// A wanted record once more.
fn copied(want: &Want) -> Result<Want, NoMemory>
    ensures { IfOk result (λ copy. copy ≡ want.now) }
{
    let key = match &want.key {
        Some(key) => Some(key.try_clone()?),
        None => None,
    };
    Ok(Want {
        table: want.table,
        key,
    })
}

// A key, lent.
fn lent(key: &Option<Key>) -> Option<&Key>
    ensures { option_copied result ≡ key.now }
{
    match key {
        Some(key) => Some(key),
        None => None,
    }
}

// The fault that a table is full.
fn full_fault(schema: &Schema, table: TableNo) -> Result<Fault, NoMemory>
    requires sound { IsSound schema.now }
    requires there { is_some (table_at schema.now table) ≡ true }
    ensures { IfOk result (IsFullFault schema.now table) }
{
    match schema.def(table) {
        Some(def) => Ok(Fault::named(FaultKind::TableFull, def.name.try_clone()?)),
        None => unreachable!(),
    }
}
