// Creations of tables and of columns.
ghost use Rattle.std.specs.Prelude.{ℕ, ◌≡◌, ◌<◌, ◌^◌, [], IfOk, IfSome, length, map};
ghost use Rattle.std.specs.List.{AllByRecursion};
ghost use Rattle.std.specs.Option.{option_map_or};
ghost use Rattle.gr_base.specs.declared.numbers.TableNo.{TableNo};
ghost use Rattle.gr_db.specs.Changed.{place_of};
ghost use Rattle.gr_db.specs.Entry.{IsReadableTarget};
ghost use Rattle.gr_db.specs.Wants.{new_index_wants};
ghost use Rattle.gr_db.specs.declared.entry.Change.TheVariants.{CreateColumn, CreateTable};
ghost use Rattle.gr_root.specs.Inside.Create.{HasBlank, IsTableMade, MakesColumn};
ghost use Rattle.gr_root.specs.Inside.Make.{IsBase, Makes};
ghost use Rattle.gr_root.specs.Inside.Sound.{records_in};
ghost use Rattle.gr_root.specs.Inside.Walk.{IsWantFor, db_of};
ghost use Rattle.gr_schema.specs.Schema.{column_at, column_count, with_column, with_table};
ghost use Rattle.gr_schema.specs.Sound.{IsSound};
ghost use Rattle.gr_schema.specs.Wishes.{IsColumnFor, IsTableFor, IsTextColumn, IsTextTable};
ghost use Rattle.gr_values.specs.Types.{IsShape};

use crate::make::{Made, Places};
use crate::put::push_places;
use crate::shared_schema::SharedSchema;
use crate::walk::walk;
use crate::working::WorkingTables;
use gr_base::{ColumnNo, Failure, Fault, Limits, ListOf, NoMemory, TableNo};
use gr_db::{Added, Want, new_index_wants, shape_of};
use gr_pvec::PVec;
use gr_schema::{ColumnDef, ColumnWish, Role, Schema, TableDef, TableWish};
use gr_table::TableRecords;
use gr_values::Shape;
use std::alloc::Global;
use std::sync::Arc;

/// Makes a table, which goes last, or refuses with the first fault.
pub(crate) fn create_table(
    alloc: Global,
    limits: Limits,
    schema: &SharedSchema,
    tables: &PVec<TableRecords>,
    wish: &TableWish,
) -> Result<Made, Failure<Fault>>
    requires base { IsBase limits.records schema.now tables.now }
    requires few { length schema.now.tables < 2 ^ 31 }
    requires text { IsTextTable wish.now }
    ensures { Makes limits schema.now tables.now (CreateTable wish.now) result }
{
    let schema = schema.get();
    match schema.check_table(alloc, wish) {
        Ok(def) => Ok(table_made(alloc, schema, tables, def)?),
        Err(failure) => Err(failure),
    }
}

/// Makes a column, which goes last in its table, or refuses with the first fault. A new index adds the tokens of the records that are there.
pub(crate) fn create_column(
    alloc: Global,
    limits: Limits,
    schema: &SharedSchema,
    tables: &PVec<TableRecords>,
    wish: &ColumnWish,
) -> Result<Made, Failure<Fault>>
    requires base { IsBase limits.records schema.now tables.now }
    requires few { (table : TableNo) → column_count schema.now table < 2 ^ 31 }
    requires text { IsTextColumn wish.now }
    ensures { Makes limits schema.now tables.now (CreateColumn wish.now) result }
{
    let schema = schema.get();
    match schema.check_column(alloc, wish) {
        Ok((table, def)) => column_made(alloc, limits, schema, tables, table, def),
        Err(failure) => Err(failure),
    }
}

// Makes a table that may be made.
fn table_made(
    alloc: Global,
    schema: &Schema,
    tables: &PVec<TableRecords>,
    def: TableDef,
) -> Result<Made, NoMemory>
    requires few { length schema.now.tables < 2 ^ 31 }
    requires long { length tables.now ≡ length schema.now.tables }
    requires wished { IsTableFor schema.now def }
    ensures { IfOk result (IsTableMade schema.now tables.now def) }
{
    let kind = def.kind;
    let key = def.key;
    let grown = with_table(alloc, schema, def)?;
    let added = Arc::new(alloc, TableRecords::new(alloc, kind, key)?)?;
    Ok(Made {
        schema: SharedSchema::of(alloc, grown)?,
        tables: tables.pushed(alloc, added)?,
        touched: ListOf::from_vec(Vec::new(alloc)),
    })
}

// Makes a column that may be made, and adds the tokens that an index wants.
fn column_made(
    alloc: Global,
    limits: Limits,
    schema: &Schema,
    tables: &PVec<TableRecords>,
    table: TableNo,
    def: ColumnDef,
) -> Result<Made, Failure<Fault>>
    requires base { IsBase limits.records schema.now tables.now }
    requires few { column_count schema.now table < 2 ^ 31 }
    requires wished { IsColumnFor schema.now table def }
    ensures { MakesColumn limits schema.now tables.now table def result }
{
    let column = ColumnNo(schema.column_count(table) as u32);
    let shape = shape_of(schema, &def.role);
    let grown = with_column(alloc, schema, table, def)?;
    let mut working = with_blank(alloc, tables, table, shape)?;
    let wants = column_wants(alloc, &grown, &working, (table, column))?;
    match walk(
        alloc,
        &grown,
        limits.records,
        &mut working,
        wants.as_slice(),
    ) {
        Ok(news) => Ok(Made {
            schema: SharedSchema::of(alloc, grown)?,
            tables: working.into_kept(alloc)?,
            touched: places_of(alloc, news.as_slice())?,
        }),
        Err(failure) => Err(failure),
    }
}

// The schema with a table that may be made.
fn with_table(alloc: Global, schema: &Schema, def: TableDef) -> Result<Schema, NoMemory>
    requires few { length schema.now.tables < 2 ^ 31 }
    requires wished { IsTableFor schema.now def }
    ensures exact { IfOk result (λ grown. grown ≡ with_table schema.now def) }
    ensures sound { IfOk result IsSound }
{
    let grown = schema.with_table(alloc, def)?;
    let _indexes = grown.indexes();
    Ok(grown)
}

// The schema with a column that may be made.
fn with_column(
    alloc: Global,
    schema: &Schema,
    table: TableNo,
    def: ColumnDef,
) -> Result<Schema, NoMemory>
    requires few { column_count schema.now table < 2 ^ 31 }
    requires wished { IsColumnFor schema.now table def }
    ensures exact { IfOk result (λ grown. grown ≡ with_column schema.now table def) }
    ensures sound { IfOk result IsSound }
{
    let grown = schema.with_column(alloc, table, def)?;
    let _indexes = grown.indexes();
    Ok(grown)
}

// The tables, of which one has one more column with the default of the shape.
fn with_blank(
    alloc: Global,
    tables: &PVec<TableRecords>,
    table: TableNo,
    shape: Option<Shape>,
) -> Result<WorkingTables, NoMemory>
    requires there { table.0 < length tables.now }
    requires shape { IfSome shape IsShape }
    ensures { IfOk result (λ working. HasBlank tables.now working table shape) }
{
    let mut working = WorkingTables::new(tables.try_clone()?);
    let mut found = working.take(alloc, table)?;
    found.add_column(alloc, shape)?;
    working.put(alloc, table, found)?;
    Ok(working)
}

// What a new column wants: an index on a lexicon wants the tokens of the records of its target.
fn column_wants(
    alloc: Global,
    schema: &Schema,
    tables: &WorkingTables,
    index: (TableNo, ColumnNo),
) -> Result<Vec<Want>, NoMemory>
    requires { IsSound schema.now }
    ensures exact { IfOk result (λ wants. wants.items ≡ option_map_or (λ def. new_index_wants (db_of schema.now tables.now) index def.role) (column_at schema.now index.0 index.1) []) }
    ensures fit { IfOk result (λ wants. AllByRecursion (IsWantFor schema.now) wants.items) }
{
    let column = match schema.def(index.0) {
        Some(home) => home.columns.get(index.1.0 as u64),
        None => None,
    };
    match column {
        Some(def) => role_wants(alloc, schema, tables, index, &def.role),
        None => Ok(Vec::new(alloc)),
    }
}

// What a column of this role wants.
fn role_wants(
    alloc: Global,
    schema: &Schema,
    tables: &WorkingTables,
    index: (TableNo, ColumnNo),
    role: &Role,
) -> Result<Vec<Want>, NoMemory>
    requires { IsSound schema.now }
    ensures exact { IfOk result (λ wants. wants.items ≡ new_index_wants (db_of schema.now tables.now) index role.now) }
    ensures fit { IfOk result (λ wants. AllByRecursion (IsWantFor schema.now) wants.items) }
{
    let _given = target_given(tables, role);
    new_index_wants(alloc, schema, tables, index, role)
}

// How many ids were given in the table that an index is over. Its texts are UTF-8.
fn target_given(tables: &WorkingTables, role: &Role) -> u32
    ensures { IsReadableTarget (records_in tables.now) role.now }
{
    match role {
        Role::Index { target, .. } => match tables.get(*target) {
            Some(found) => found.given(),
            None => 0,
        },
        _ => 0,
    }
}

// Where records were added.
fn places_of(alloc: Global, news: &[Added]) -> Result<Places, NoMemory>
    ensures { IfOk result (λ places. places ≡ map place_of news.now) }
{
    let mut places = Vec::new(alloc);
    push_places(&mut places, news)?;
    Ok(ListOf::from_vec(places))
}
