// Deletions.
ghost use Rattle.std.specs.Prelude.{◌≡◌, ◌∷◌, [], true, is_some, IfOk, IsUtf8, OnOk};
ghost use Rattle.gr_db.specs.Db.{without};
ghost use Rattle.gr_db.specs.Entry.{IsDelete, IsDeleteIf};
ghost use Rattle.gr_db.specs.Fitting.{IsFitting};
ghost use Rattle.gr_db.specs.declared.entry.Change.TheVariants.{Delete, DeleteIf};
ghost use Rattle.gr_base.specs.Fault.{fault_named};
ghost use Rattle.gr_base.specs.declared.fault.FaultKind.TheVariants.{NoSuchRecord};
ghost use Rattle.gr_expr.specs.Tables.{record_at};
ghost use Rattle.gr_root.specs.Inside.Change.{IsChangedAt, IsRemoved, IsUnchanged};
ghost use Rattle.gr_root.specs.Inside.Sound.{records_in};
ghost use Rattle.gr_root.specs.Inside.Make.{IsBase, Makes};
ghost use Rattle.gr_root.specs.Inside.Walk.{db_of};

use crate::make::{Made, Places};
use crate::shared_schema::SharedSchema;
use crate::working::WorkingTables;
use gr_base::{Bytes, Failure, Fault, FaultKind, Limits, ListOf, NoMemory, RecordId, TableNo};
use gr_db::{SharedExpr, Which, id_if, id_which};
use gr_pvec::PVec;
use gr_table::TableRecords;
use std::alloc::Global;

/// Removes a record, or refuses where it is not there.
pub(crate) fn delete(
    alloc: Global,
    limits: Limits,
    schema: &SharedSchema,
    tables: &PVec<TableRecords>,
    table: TableNo,
    by: &Which,
) -> Result<Made, Failure<Fault>>
    requires base { IsBase limits.records schema.now tables.now }
    requires valid { IsDelete schema.now table by.now }
    ensures { Makes limits schema.now tables.now (Delete table by.now) result }
{
    let working = WorkingTables::new(tables.try_clone()?);
    match id_which(&working, table, by) {
        Some(id) => Ok(removed(alloc, schema, working, table, id)?),
        None => Err(Failure::Refused(no_such_record(alloc)?)),
    }
}

/// Removes a record where it is there and a condition finds it, and else does nothing.
pub(crate) fn delete_if(
    alloc: Global,
    limits: Limits,
    schema: &SharedSchema,
    tables: &PVec<TableRecords>,
    table: TableNo,
    id: RecordId,
    condition: &SharedExpr,
) -> Result<Made, Failure<Fault>>
    requires base { IsBase limits.records schema.now tables.now }
    requires fitting { IsFitting (db_of schema.now tables.now) }
    requires valid { IsDeleteIf schema.now table condition.now }
    ensures { Makes limits schema.now tables.now (DeleteIf table id condition.now) result }
{
    let working = WorkingTables::new(tables.try_clone()?);
    match id_if(&working, table, id, condition.get()) {
        Some(id) => Ok(removed(alloc, schema, working, table, id)?),
        None => Ok(unchanged(alloc, schema, tables)?),
    }
}

// What stands without a record that is there.
fn removed(
    alloc: Global,
    schema: &SharedSchema,
    mut working: WorkingTables,
    table: TableNo,
    id: RecordId,
) -> Result<Made, NoMemory>
    requires { is_some (record_at (records_in working) table id) ≡ true }
    ensures { IfOk result (IsRemoved schema.now working table id) }
{
    remove(alloc, &mut working, table, id)?;
    Ok(Made {
        schema: schema.try_clone()?,
        tables: working.into_kept(alloc)?,
        touched: one_place(alloc, table, id)?,
    })
}

// What stands where nothing changes.
fn unchanged(
    alloc: Global,
    schema: &SharedSchema,
    tables: &PVec<TableRecords>,
) -> Result<Made, NoMemory>
    ensures { IfOk result (IsUnchanged schema.now tables.now) }
{
    Ok(Made {
        schema: schema.try_clone()?,
        tables: tables.try_clone()?,
        touched: ListOf::from_vec(Vec::new(alloc)),
    })
}

// Removes a record that is there.
fn remove(
    alloc: Global,
    tables: &mut WorkingTables,
    table: TableNo,
    id: RecordId,
) -> Result<(), NoMemory>
    requires { is_some (record_at (records_in tables.old) table id) ≡ true }
    ensures { OnOk result (IsChangedAt tables.old tables.new table (without id.0)) }
{
    let mut found = tables.take(alloc, table)?;
    found.remove(alloc, id)?;
    tables.put(alloc, table, found)
}

// One record alone.
fn one_place(alloc: Global, table: TableNo, id: RecordId) -> Result<Places, NoMemory>
    ensures { IfOk result (λ places. places ≡ (table, id) ∷ []) }
{
    let mut places = Vec::new(alloc);
    places.push((table, id))?;
    Ok(ListOf::from_vec(places))
}

// The fault of a deletion whose record is not there, which has no name.
fn no_such_record(alloc: Global) -> Result<Fault, NoMemory>
    ensures is { IfOk result (λ fault. fault ≡ fault_named NoSuchRecord []) }
    ensures text { IfOk result (λ fault. IsUtf8 fault.name) }
{
    let name = Bytes::from_string(alloc, String::new(alloc))?;
    Ok(Fault::named(FaultKind::NoSuchRecord, name))
}
