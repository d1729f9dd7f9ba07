// What an entry's change makes, whichever it is.
ghost use Rattle.std.specs.Prelude.{◌≡◌, ◌<◌, ◌^◌, [], IfOk, IsUtf8, length};
ghost use Rattle.gr_base.specs.Fault.{fault_named};
ghost use Rattle.gr_base.specs.declared.fault.FaultKind.TheVariants.{JournalFull};
ghost use Rattle.gr_base.specs.declared.numbers.TableNo.{TableNo};
ghost use Rattle.gr_db.specs.Entry.{IsValid};
ghost use Rattle.gr_db.specs.Fitting.{IsFitting};
ghost use Rattle.gr_root.specs.Inside.Make.{IsBase, Makes};
ghost use Rattle.gr_root.specs.Inside.Walk.{db_of};
ghost use Rattle.gr_root.specs.Root.{HoldsText};
ghost use Rattle.gr_schema.specs.Schema.{column_count};
ghost use Rattle.gr_schema.specs.Sound.{IsSound};

use crate::create::{create_column, create_table};
use crate::delete::{delete, delete_if};
use crate::make::Made;
use crate::put::put;
use crate::shared_schema::SharedSchema;
use gr_base::{Bytes, Failure, Fault, FaultKind, Limits, NoMemory};
use gr_db::Change;
use gr_pvec::PVec;
use gr_schema::Schema;
use gr_table::TableRecords;
use std::alloc::Global;

/// What a change makes of a schema and tables, or its first fault; a merge is none that a session asks for.
pub(crate) fn made(
    alloc: Global,
    limits: Limits,
    schema: &SharedSchema,
    tables: &PVec<TableRecords>,
    change: &Change,
) -> Result<Made, Failure<Fault>>
    requires base { IsBase limits.records schema.now tables.now }
    requires fitting { IsFitting (db_of schema.now tables.now) }
    requires few_tables { length schema.now.tables < 2 ^ 31 }
    requires few_columns { (table : TableNo) → column_count schema.now table < 2 ^ 31 }
    requires valid { IsValid schema.now change.now }
    requires text { HoldsText change.now }
    ensures { Makes limits schema.now tables.now change.now result }
{
    match change {
        Change::CreateTable(wish) => create_table(alloc, limits, schema, tables, wish),
        Change::CreateColumn(wish) => create_column(alloc, limits, schema, tables, wish),
        Change::Put {
            table,
            key,
            settings,
        } => put(
            alloc,
            limits,
            schema,
            tables,
            *table,
            key.as_ref(),
            settings.as_slice(),
        ),
        Change::Delete { table, by } => delete(alloc, limits, schema, tables, *table, by),
        Change::DeleteIf {
            table,
            id,
            condition,
        } => delete_if(alloc, limits, schema, tables, *table, *id, condition),
        Change::Merge { .. } => unreachable!(),
    }
}

/// Says that a schema is sound, as each is; it does nothing.
pub(crate) fn tell_sound(schema: &Schema)
    ensures { IsSound schema.now }
{
    schema.indexes();
}

/// The fault of a full journal, which has no name.
pub(crate) fn journal_full(alloc: Global) -> Result<Fault, NoMemory>
    ensures is { IfOk result (λ fault. fault ≡ fault_named JournalFull []) }
    ensures text { IfOk result (λ fault. IsUtf8 fault.name) }
{
    let name = Bytes::from_string(alloc, String::new(alloc))?;
    Ok(Fault::named(FaultKind::JournalFull, name))
}
