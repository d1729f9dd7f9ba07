// The records that a put wants: its own, and those that its settings refer to.
ghost use Rattle.std.specs.Prelude.{◌≡◌, ◌++◌, ◌∷◌, [], IfOk, OnOk, map};
ghost use Rattle.std.specs.List.{flat_map};
ghost use Rattle.std.specs.Option.{option_copied};
ghost use Rattle.gr_db.specs.Entry.{AreDistinct};
ghost use Rattle.gr_db.specs.Inside.Wanting.{keyed_want};
ghost use Rattle.gr_db.specs.Wants.{column_target, keys_in, record_wants, reference_wants, role_target, target_of};

use crate::Want;
use crate::sorted::by_column;
use gr_base::{ColumnNo, NoMemory, TableNo};
use gr_schema::{Role, Schema};
use gr_values::{Given, Key, Kind};
use std::alloc::Global;

/// The records that a put wants, in order: its own, and then those that its settings refer to, column by column.
pub fn record_wants(
    alloc: Global,
    schema: &Schema,
    table: TableNo,
    key: Option<&Key>,
    settings: &[(ColumnNo, Given)],
) -> Result<Vec<Want>, NoMemory>
    requires { AreDistinct settings.now }
    ensures { IfOk result (λ wants. wants.items ≡ record_wants schema.now table (option_copied key.entry) settings.now) }
{
    let mut wants = Vec::new(alloc);
    let key = copied(key)?;
    wants.push(Want { table, key })?;
    let sorted = by_column(alloc, settings)?;
    push_all_references(&mut wants, schema, table, sorted.as_slice())?;
    Ok(wants)
}

// Adds the records that settings refer to.
fn push_all_references(
    wants: &mut Vec<Want>,
    schema: &Schema,
    table: TableNo,
    settings: &[&(ColumnNo, Given)],
) -> Result<(), NoMemory>
    ensures { OnOk result (wants.new.items ≡ wants.old.items ++ flat_map (reference_wants schema.now table) (map (λ setting. setting.now) settings.now)) }
{
    for setting in settings {
        push_references(wants, schema, table, setting)?;
    }
    Ok(())
}

// A key once more, where there is one.
fn copied(key: Option<&Key>) -> Result<Option<Key>, NoMemory>
    ensures { IfOk result (λ copy. copy ≡ option_copied key.entry) }
{
    match key {
        Some(key) => Ok(Some(key.try_clone()?)),
        None => Ok(None),
    }
}

// Adds the records that a setting refers to.
fn push_references(
    wants: &mut Vec<Want>,
    schema: &Schema,
    table: TableNo,
    setting: &(ColumnNo, Given),
) -> Result<(), NoMemory>
    ensures { OnOk result (wants.new.items ≡ wants.old.items ++ reference_wants schema.now table setting.now) }
{
    match column_target(schema, table, setting.0) {
        Some(to) => push_keys(wants, to, keys_in(&setting.1)),
        None => Ok(()),
    }
}

// Adds a record for each of these keys.
fn push_keys(wants: &mut Vec<Want>, to: TableNo, keys: &[Key]) -> Result<(), NoMemory>
    ensures { OnOk result (wants.new.items ≡ wants.old.items ++ map (keyed_want to) keys.now) }
{
    for key in keys {
        wants.push(Want {
            table: to,
            key: Some(key.try_clone()?),
        })?;
    }
    Ok(())
}

// The keys that a value refers to.
fn keys_in(given: &Given) -> &[Key]
    ensures { result.now ≡ keys_in given.now }
{
    match given {
        Given::Ref(Some(key)) => std::slice::from_ref(key),
        Given::RefList(keys) => keys.as_slice(),
        _ => &[],
    }
}

/// The table that a column refers to, where it does.
pub fn column_target(schema: &Schema, table: TableNo, column: ColumnNo) -> Option<TableNo>
    ensures { result ≡ column_target schema.now table column }
{
    let def = schema.def(table)?;
    role_target(&def.columns.get(column.0 as u64)?.role)
}

// The table that a column of this role refers to, where it does.
fn role_target(role: &Role) -> Option<TableNo>
    ensures { result ≡ role_target role.now }
{
    match role {
        Role::Scalar(kind) | Role::Vector(kind) => target_of(*kind),
        Role::Index { .. } => None,
    }
}

// The table that values of a kind refer to, where they do.
fn target_of(kind: Kind) -> Option<TableNo>
    ensures { result ≡ target_of kind }
{
    match kind {
        Kind::Plain(_) => None,
        Kind::Reference(to) => Some(to),
    }
}
