// Schemas that are made wish by wish.
use crate::{ColumnWish, Schema, TableWish};
use gr_base::{Bytes, NoMemory};
use std::alloc::Global;

/// A word, where `-` was not given.
fn word(alloc: Global, word: Option<&str>) -> Result<Bytes, NoMemory> {
    match word {
        Some("-") | None => Bytes::from_slice(alloc, b""),
        Some(text) => Bytes::from_slice(alloc, text.as_bytes()),
    }
}

/// A wish by its words: name, flags, key type and tokenizer.
pub(super) fn table_wish(alloc: Global, words: &str) -> Result<TableWish, NoMemory> {
    let mut words = words.split(' ');
    Ok(TableWish {
        name: word(alloc, words.next())?,
        flags: word(alloc, words.next())?,
        key_type: word(alloc, words.next())?,
        tokenizer: word(alloc, words.next())?,
    })
}

/// A wish by its words: table, name, flags, type and source.
pub(super) fn column_wish(alloc: Global, words: &str) -> Result<ColumnWish, NoMemory> {
    let mut words = words.split(' ');
    Ok(ColumnWish {
        table: word(alloc, words.next())?,
        name: word(alloc, words.next())?,
        flags: word(alloc, words.next())?,
        kind: word(alloc, words.next())?,
        source: word(alloc, words.next())?,
    })
}

/// The schema with this table, or as it was where the wish is refused.
fn with_table(alloc: Global, schema: Schema, words: &str) -> Result<Schema, NoMemory> {
    if schema.table_count() >= 1 << 31 {
        return Ok(schema);
    }
    match schema.check_table(alloc, &table_wish(alloc, words)?) {
        Ok(def) => schema.with_table(alloc, def),
        Err(_) => Ok(schema),
    }
}

/// The schema with this column, or as it was where the wish is refused.
fn with_column(alloc: Global, schema: Schema, words: &str) -> Result<Schema, NoMemory> {
    match schema.check_column(alloc, &column_wish(alloc, words)?) {
        Ok((table, def)) => {
            if schema.column_count(table) >= 1 << 31 {
                return Ok(schema);
            }
            schema.with_column(alloc, table, def)
        }
        Err(_) => Ok(schema),
    }
}

const TABLES: [&str; 5] = [
    "Doc TABLE_HASH_KEY ShortText -",
    "User TABLE_PAT_KEY UInt32 -",
    "Log TABLE_NO_KEY - -",
    "Terms TABLE_PAT_KEY ShortText TokenDelimit",
    "Pairs - ShortText TokenBigram",
];

const COLUMNS: [&str; 10] = [
    "Doc title COLUMN_SCALAR ShortText -",
    "Doc body - Text -",
    "Doc tags COLUMN_VECTOR ShortText -",
    "Doc author COLUMN_SCALAR User -",
    "Doc readers COLUMN_VECTOR User -",
    "User friend COLUMN_SCALAR User -",
    "Pairs titles COLUMN_INDEX Doc title",
    "Terms texts WITH_SECTION|COLUMN_INDEX|WITH_POSITION Doc body,title,_key",
    "Pairs bodies COLUMN_INDEX Doc body",
    "User docs COLUMN_INDEX|WITH_POSITION Doc author",
];

/// Documents with an author and readers, and indexes over them.
pub(super) fn library(alloc: Global) -> Result<Schema, NoMemory> {
    let mut schema = Schema::new();
    for words in TABLES {
        schema = with_table(alloc, schema, words)?;
    }
    for words in COLUMNS {
        schema = with_column(alloc, schema, words)?;
    }
    Ok(schema)
}
