// Drilldowns of a small table, by their keys.
use crate::{Drilldown, drilldowns};
use gr_base::{Bytes, Failure, NoMemory, TableNo};
use gr_schema::{ColumnWish, Schema, TableWish};
use std::alloc::Global;
use std::test::Fail;

const DOC: TableNo = TableNo(0);

fn word(alloc: Global, word: &str) -> Result<Bytes, NoMemory> {
    Bytes::from_slice(alloc, word.as_bytes())
}

/// The schema with a table of documents, or as it was.
fn with_table(alloc: Global, schema: Schema) -> Result<Schema, NoMemory> {
    let wish = TableWish {
        name: word(alloc, "Doc")?,
        flags: word(alloc, "TABLE_HASH_KEY")?,
        key_type: word(alloc, "ShortText")?,
        tokenizer: word(alloc, "")?,
    };
    if schema.table_count() >= 1 << 31 {
        return Ok(schema);
    }
    match schema.check_table(alloc, &wish) {
        Ok(def) => schema.with_table(alloc, def),
        Err(_) => Ok(schema),
    }
}

/// The schema with one more column of documents, or as it was.
fn with_column(alloc: Global, schema: Schema, name: &str, kind: &str) -> Result<Schema, NoMemory> {
    let wish = ColumnWish {
        table: word(alloc, "Doc")?,
        name: word(alloc, name)?,
        flags: word(alloc, "COLUMN_SCALAR")?,
        kind: word(alloc, kind)?,
        source: word(alloc, "")?,
    };
    match schema.check_column(alloc, &wish) {
        Ok((table, def)) => {
            if schema.column_count(table) >= 1 << 31 {
                return Ok(schema);
            }
            schema.with_column(alloc, table, def)
        }
        Err(_) => Ok(schema),
    }
}

/// Documents with a title and a document that each is like.
fn library(alloc: Global) -> Result<Schema, NoMemory> {
    let schema = with_table(alloc, Schema::new())?;
    let schema = with_column(alloc, schema, "title", "Text")?;
    with_column(alloc, schema, "like", "Doc")
}

/// Adds the names of a drilldown's columns, each behind a space, and a semicolon.
fn push_names(names: &mut Vec<u8>, drilldown: &Drilldown) -> Result<(), NoMemory> {
    for column in drilldown.columns.as_slice() {
        names.push(b' ')?;
        names.extend_from_slice(column.name.as_slice())?;
    }
    names.push(b';')?;
    Ok(())
}

/// The names of the columns of each drilldown.
fn names(alloc: Global, drilldowns: &[Drilldown]) -> Result<Vec<u8>, NoMemory> {
    let mut names = Vec::new(alloc);
    for drilldown in drilldowns {
        push_names(&mut names, drilldown)?;
    }
    Ok(names)
}

/// The names of the columns of the drilldowns that are asked for, or the name that is at fault.
fn asked(alloc: Global, keys: &str, columns: &str, order: &str) -> Result<Vec<u8>, NoMemory> {
    let schema = library(alloc)?;
    if schema.def(DOC).is_none() {
        return Ok(Vec::new(alloc));
    }
    match drilldowns(alloc, &schema, DOC, keys, Some(columns), Some(order)) {
        Ok(drilldowns) => names(alloc, drilldowns.as_slice()),
        Err(Failure::Refused(fault)) => Ok(Vec::from_slice(alloc, fault.name.as_slice())?),
        Err(Failure::NoMemory) => Err(NoMemory),
    }
}

#[test]
fn all_columns_are_those_of_the_records_referred_to(rt: HostRuntime) -> Result<(), Fail> {
    let found = asked(rt.alloc(), "like, title", "_key,*", "-_nsubrecs")?;
    assert_eq!(rt; found.as_slice(), b" _key title like; _key;".as_slice());
    Ok(())
}
