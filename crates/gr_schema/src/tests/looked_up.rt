// Look-ups in a small schema.
use super::made::library;
use crate::Schema;
use gr_base::{ColumnNo, NoMemory, TableNo};
use gr_tokens::How;
use gr_values::{DataType, Field, Path};
use std::alloc::Global;
use std::test::Fail;

const DOC: TableNo = TableNo(0);

const USER: TableNo = TableNo(1);

const TITLE: Field = Field::Column(ColumnNo(0));

const BODY: Field = Field::Column(ColumnNo(1));

const AUTHOR: Field = Field::Column(ColumnNo(3));

#[test]
fn tables_and_columns_are_found_by_their_names(rt: HostRuntime) -> Result<(), Fail> {
    let schema = library(rt.alloc())?;
    assert_eq!(rt; schema.table_count(), 5);
    assert_eq!(rt; schema.table(b"Pairs"), Some(TableNo(4)));
    assert_eq!(rt; schema.table(b"pairs"), None);
    assert_eq!(rt; schema.column_count(DOC), 5);
    assert_eq!(rt; schema.column(DOC, b"readers"), Some(ColumnNo(4)));
    assert_eq!(rt; schema.column(USER, b"readers"), None);
    assert!(rt; schema.def(TableNo(5)).is_none());
    Ok(())
}

#[test]
fn the_index_made_first_decides_how_a_field_is_read(rt: HostRuntime) -> Result<(), Fail> {
    let schema = library(rt.alloc())?;
    let titles = (TableNo(4), ColumnNo(0));
    let texts = (TableNo(3), ColumnNo(0));
    assert_eq!(rt; schema.indexes().len(), 4);
    assert_eq!(rt; schema.first_index(DOC, TITLE), Some(titles));
    assert_eq!(rt; schema.first_index(DOC, BODY), Some(texts));
    assert_eq!(rt; schema.first_index(USER, Field::Key), None);
    assert_eq!(rt; schema.how(DOC, TITLE), How::Chars);
    assert_eq!(rt; schema.how(DOC, BODY), How::Words);
    assert_eq!(rt; schema.index_by(DOC, TITLE, How::Words), Some((texts, 1)));
    assert_eq!(rt; schema.index_by(DOC, AUTHOR, How::Words), None);
    Ok(())
}

fn resolved(alloc: Global, schema: &Schema, text: &str) -> Result<Option<Path>, NoMemory> {
    if schema.table_count() == 0 {
        return Ok(None);
    }
    match schema.resolve(alloc, DOC, text.as_bytes()) {
        Ok(path) => Ok(Some(path)),
        Err(_) => Ok(None),
    }
}

#[test]
fn a_path_follows_single_references(rt: HostRuntime) -> Result<(), Fail> {
    let schema = library(rt.alloc())?;
    match resolved(rt.alloc(), &schema, "author.friend._key")? {
        Some(path) => {
            assert_eq!(rt; path.through.as_slice().len(), 2);
            assert_eq!(rt; path.last, Field::Key);
            assert_eq!(rt; path.shape.of, DataType::UInt32);
        }
        None => assert!(rt; false, "no path"),
    }
    Ok(())
}

const NO_PATHS: [&str; 8] = [
    "",
    "readers._key",
    "title.body",
    "author.",
    "author..friend",
    "_score",
    "Doc",
    "tags._id",
];

#[test]
fn other_names_are_no_paths(rt: HostRuntime) -> Result<(), Fail> {
    let schema = library(rt.alloc())?;
    for text in NO_PATHS {
        let path = resolved(rt.alloc(), &schema, text)?;
        assert!(rt; path.is_none(), "{text} is a path");
    }
    Ok(())
}
