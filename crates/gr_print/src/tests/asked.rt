// Columns of a small table, by their names.
use crate::{OutColumn, columns};
use gr_base::{Bytes, Failure, NoMemory, TableNo};
use gr_schema::{ColumnWish, Schema, TableWish};
use std::alloc::Global;
use std::test::Fail;

const DOC: TableNo = TableNo(0);

fn word(alloc: Global, word: &str) -> Result<Bytes, NoMemory> {
    Bytes::from_slice(alloc, word.as_bytes())
}

/// The schema with a table of documents, or as it was.
fn with_table(alloc: Global, schema: Schema) -> Result<Schema, NoMemory> {
    let wish = TableWish {
        name: word(alloc, "Doc")?,
        flags: word(alloc, "TABLE_HASH_KEY")?,
        key_type: word(alloc, "ShortText")?,
        tokenizer: word(alloc, "")?,
    };
    if schema.table_count() >= 1 << 31 {
        return Ok(schema);
    }
    match schema.check_table(alloc, &wish) {
        Ok(def) => schema.with_table(alloc, def),
        Err(_) => Ok(schema),
    }
}

/// The schema with one more column of documents, or as it was.
fn with_column(alloc: Global, schema: Schema, name: &str, kind: &str) -> Result<Schema, NoMemory> {
    let wish = ColumnWish {
        table: word(alloc, "Doc")?,
        name: word(alloc, name)?,
        flags: word(alloc, "COLUMN_SCALAR")?,
        kind: word(alloc, kind)?,
        source: word(alloc, "")?,
    };
    match schema.check_column(alloc, &wish) {
        Ok((table, def)) => {
            if schema.column_count(table) >= 1 << 31 {
                return Ok(schema);
            }
            schema.with_column(alloc, table, def)
        }
        Err(_) => Ok(schema),
    }
}

/// Documents with a title and a document that each is like.
fn library(alloc: Global) -> Result<Schema, NoMemory> {
    let schema = with_table(alloc, Schema::new())?;
    let schema = with_column(alloc, schema, "title", "Text")?;
    with_column(alloc, schema, "like", "Doc")
}

/// The names of columns, each behind a space.
fn names(alloc: Global, columns: &[OutColumn]) -> Result<Vec<u8>, NoMemory> {
    let mut names = Vec::new(alloc);
    for column in columns {
        names.push(b' ')?;
        names.extend_from_slice(column.name.as_slice())?;
    }
    Ok(names)
}

/// The names of the columns that are asked for, or the name that is none.
fn asked(alloc: Global, text: Option<&str>) -> Result<Vec<u8>, NoMemory> {
    let schema = library(alloc)?;
    if schema.def(DOC).is_none() {
        return Ok(Vec::new(alloc));
    }
    match columns(alloc, &schema, DOC, text) {
        Ok(columns) => names(alloc, columns.as_slice()),
        Err(Failure::Refused(fault)) => Ok(Vec::from_slice(alloc, fault.name.as_slice())?),
        Err(Failure::NoMemory) => Err(NoMemory),
    }
}

#[test]
fn no_list_asks_for_the_id_the_key_and_all_data_columns(rt: HostRuntime) -> Result<(), Fail> {
    let found = asked(rt.alloc(), None)?;
    assert_eq!(rt; found.as_slice(), b" _id _key title like".as_slice());
    Ok(())
}

#[test]
fn white_space_and_empty_names_are_left_out(rt: HostRuntime) -> Result<(), Fail> {
    let found = asked(rt.alloc(), Some("_score,\tlike.title ,,*"))?;
    assert_eq!(rt;
        found.as_slice(),
        b" _score like.title title like".as_slice()
    );
    Ok(())
}

#[test]
fn the_first_name_that_is_none_is_told(rt: HostRuntime) -> Result<(), Fail> {
    let told = asked(rt.alloc(), Some("like, title.like"))?;
    assert_eq!(rt; told.as_slice(), b"title.like".as_slice());
    Ok(())
}
