// Puts.
ghost use Rattle.std.specs.Prelude.{◌≡◌, ◌++◌, IfErr, IfOk, OnOk, List, is_some, map, true};
ghost use Rattle.std.specs.List.{AllByRecursion};
ghost use Rattle.std.specs.Option.{option_copied};
ghost use Rattle.gr_db.specs.Changed.{place_of};
ghost use Rattle.gr_db.specs.Entry.{AreDistinct, IsPut, IsReadableNew, IsReadableSetting, IsSetting};
ghost use Rattle.gr_db.specs.Wants.{Setting, record_wants, token_wants};
ghost use Rattle.gr_db.specs.declared.entry.Change.TheVariants.{Put};
ghost use Rattle.gr_root.specs.Inside.Make.{IsBase, Makes};
ghost use Rattle.gr_root.specs.Inside.Put.{IsSet, IsSetAll, PutsIn, own_at};
ghost use Rattle.gr_root.specs.Inside.Sound.{AreFormed, AreWithin};
ghost use Rattle.gr_root.specs.Inside.Walk.{IsEnded, IsWalked};
ghost use Rattle.gr_schema.specs.Schema.{table_at};
ghost use Rattle.gr_schema.specs.Sound.{IsSound};

use crate::make::{Made, Places};
use crate::shared_schema::SharedSchema;
use crate::walk::walk;
use crate::working::WorkingTables;
use gr_base::{ColumnNo, Failure, Fault, Limits, ListOf, NoMemory, RecordId, TableNo};
use gr_db::{Added, column_target, kept, own_id, record_wants, token_wants};
use gr_expr::Rows;
use gr_pvec::PVec;
use gr_schema::Schema;
use gr_table::TableRecords;
use gr_values::{Given, Key};
use std::alloc::Global;

/// Finds or adds a record and those that it refers to, sets its cells, and adds tokens to lexicons.
pub(crate) fn put(
    alloc: Global,
    limits: Limits,
    schema: &SharedSchema,
    tables: &PVec<TableRecords>,
    table: TableNo,
    key: Option<&Key>,
    settings: &[(ColumnNo, Given)],
) -> Result<Made, Failure<Fault>>
    requires base { IsBase limits.records schema.now tables.now }
    requires valid { IsPut schema.now table (option_copied key) settings.now }
    ensures { (kept : List Setting) → kept ≡ settings.now → Makes limits schema.now tables.now (Put table (option_copied key.entry) kept) result }
{
    let mut working = WorkingTables::new(tables.try_clone()?);
    let home = schema.get();
    match put_in(
        alloc,
        limits.records,
        home,
        &mut working,
        table,
        key,
        settings,
    ) {
        Ok(touched) => Ok(Made {
            schema: schema.try_clone()?,
            tables: working.into_kept(alloc)?,
            touched,
        }),
        Err(failure) => Err(failure),
    }
}

// Does a put in tables, and tells the records that it touches. The first table that is full ends it.
fn put_in(
    alloc: Global,
    limit: u32,
    schema: &Schema,
    tables: &mut WorkingTables,
    table: TableNo,
    key: Option<&Key>,
    settings: &[(ColumnNo, Given)],
) -> Result<Places, Failure<Fault>>
    requires base { IsBase limit schema.now tables.old }
    requires valid { IsPut schema.now table (option_copied key) settings.now }
    ensures { PutsIn limit schema.now tables.old tables.new table (option_copied key.entry) settings.now result }
{
    let news = match add_records(alloc, limit, schema, tables, table, key, settings) {
        Ok(news) => news,
        Err(failure) => return Err(failure),
    };
    let own = own_id(tables, table, key);
    set_all(alloc, schema, tables, table, own, settings)?;
    let more = match add_tokens(
        alloc,
        limit,
        schema,
        tables,
        table,
        settings,
        news.as_slice(),
    ) {
        Ok(more) => more,
        Err(failure) => return Err(failure),
    };
    let own = own_id(tables, table, key);
    Ok(places(
        alloc,
        news.as_slice(),
        more.as_slice(),
        table,
        own,
        settings,
    )?)
}

// Finds or adds a put's record and those that it refers to, and tells those that it added.
fn add_records(
    alloc: Global,
    limit: u32,
    schema: &Schema,
    tables: &mut WorkingTables,
    table: TableNo,
    key: Option<&Key>,
    settings: &[(ColumnNo, Given)],
) -> Result<Vec<Added>, Failure<Fault>>
    requires base { IsBase limit schema.now tables.old }
    requires valid { IsPut schema.now table (option_copied key) settings.now }
    ensures walked { IfOk result (λ news. IsWalked limit schema.now tables.old tables.new (record_wants schema.now table (option_copied key.entry) settings.now) news.items) }
    ensures ended { IfErr result (IsEnded limit schema.now tables.old (record_wants schema.now table (option_copied key.entry) settings.now)) }
{
    let wants = record_wants(alloc, schema, table, key, settings)?;
    walk(alloc, schema, limit, tables, wants.as_slice())
}

// Finds or adds the tokens of the keys of records that were added and of the texts that are set, and tells those that it added.
fn add_tokens(
    alloc: Global,
    limit: u32,
    schema: &Schema,
    tables: &mut WorkingTables,
    table: TableNo,
    settings: &[(ColumnNo, Given)],
    news: &[Added],
) -> Result<Vec<Added>, Failure<Fault>>
    requires base { IsBase limit schema.now tables.old }
    requires distinct { AreDistinct settings.now }
    requires texts { AllByRecursion IsReadableSetting settings.now }
    requires keys { AllByRecursion IsReadableNew news.now }
    ensures walked { IfOk result (λ more. IsWalked limit schema.now tables.old tables.new (token_wants schema.now table settings.now news.now) more.items) }
    ensures ended { IfErr result (IsEnded limit schema.now tables.old (token_wants schema.now table settings.now news.now)) }
{
    let wants = token_wants(alloc, schema, table, settings, news)?;
    walk(alloc, schema, limit, tables, wants.as_slice())
}

// The records that a put touches: those that it adds, and its own, where it sets cells.
fn places(
    alloc: Global,
    news: &[Added],
    more: &[Added],
    table: TableNo,
    own: RecordId,
    settings: &[(ColumnNo, Given)],
) -> Result<Places, NoMemory>
    ensures { IfOk result (λ places. places ≡ (map place_of news.now ++ map place_of more.now) ++ own_at table own settings.now) }
{
    let mut places = Vec::new(alloc);
    push_places(&mut places, news)?;
    push_places(&mut places, more)?;
    push_own(&mut places, table, own, settings)?;
    Ok(ListOf::from_vec(places))
}

/// Adds the places of records that were added.
pub(crate) fn push_places(
    places: &mut Vec<(TableNo, RecordId)>,
    news: &[Added],
) -> Result<(), NoMemory>
    ensures { OnOk result (places.new.items ≡ places.old.items ++ map place_of news.now) }
{
    for new in news {
        places.push((new.want.table, new.id))?;
    }
    Ok(())
}

// Adds the place of a put's own record, where cells of it are set.
fn push_own(
    places: &mut Vec<(TableNo, RecordId)>,
    table: TableNo,
    own: RecordId,
    settings: &[(ColumnNo, Given)],
) -> Result<(), NoMemory>
    ensures { OnOk result (places.new.items ≡ places.old.items ++ own_at table own settings.now) }
{
    if !settings.is_empty() {
        places.push((table, own))?;
    }
    Ok(())
}

// Sets cells of a record.
fn set_all(
    alloc: Global,
    schema: &Schema,
    tables: &mut WorkingTables,
    table: TableNo,
    id: RecordId,
    settings: &[(ColumnNo, Given)],
) -> Result<(), NoMemory>
    requires formed { AreFormed schema.now tables.old }
    requires there { is_some (table_at schema.now table) ≡ true }
    requires fit { AllByRecursion (IsSetting schema.now table) settings.now }
    ensures { OnOk result (IsSetAll schema.now tables.old tables.new table id settings.now) }
{
    for setting in settings {
        set_cell(alloc, schema, tables, table, id, setting)?;
    }
    Ok(())
}

// Sets a cell of a record that is there.
fn set_cell(
    alloc: Global,
    schema: &Schema,
    tables: &mut WorkingTables,
    table: TableNo,
    id: RecordId,
    setting: &(ColumnNo, Given),
) -> Result<(), NoMemory>
    requires formed { AreFormed schema.now tables.old }
    requires there { is_some (table_at schema.now table) ≡ true }
    requires fits { IsSetting schema.now table setting.now }
    ensures { OnOk result (IsSet schema.now tables.old tables.new table id setting.now) }
{
    if !tables.is_alive(table, id) {
        return Ok(());
    }
    let cell = kept(
        alloc,
        tables,
        column_target(schema, table, setting.0),
        &setting.1,
    )?;
    let mut found = tables.take(alloc, table)?;
    found.set(alloc, id, setting.0, cell)?;
    tables.put(alloc, table, found)
}
