// Each refusal of a wish once, with the text that it tells, and the first fault where there are several.
use super::made::{column_wish, library, table_wish};
use crate::Schema;
use gr_base::{Bytes, Failure, Fault, NoMemory};
use std::alloc::Global;
use std::test::Fail;

/// The fault's name and its own name.
fn told(alloc: Global, failure: &Failure<Fault>) -> Result<Bytes, NoMemory> {
    match failure {
        Failure::Refused(fault) => {
            let mut text = Vec::from_slice(alloc, fault.kind.name().as_bytes())?;
            text.push(b' ')?;
            text.extend_from_slice(fault.name.as_slice())?;
            Bytes::from_vec(alloc, text)
        }
        Failure::NoMemory => Err(NoMemory),
    }
}

/// What a wish for a table is told.
fn of_table(alloc: Global, schema: &Schema, words: &str) -> Result<Bytes, NoMemory> {
    match schema.check_table(alloc, &table_wish(alloc, words)?) {
        Ok(_) => Bytes::from_slice(alloc, b"taken"),
        Err(failure) => told(alloc, &failure),
    }
}

/// What a wish for a column is told.
fn of_column(alloc: Global, schema: &Schema, words: &str) -> Result<Bytes, NoMemory> {
    match schema.check_column(alloc, &column_wish(alloc, words)?) {
        Ok(_) => Bytes::from_slice(alloc, b"taken"),
        Err(failure) => told(alloc, &failure),
    }
}

/// Whether a wish for a table is told what stands behind the sign.
fn is_table_told(alloc: Global, schema: &Schema, case: &str) -> Result<bool, NoMemory> {
    match case.split_once(" = ") {
        Some((words, told)) => { Ok(of_table(alloc, schema, words)?.as_slice() == told.as_bytes()) }
        None => Ok(false),
    }
}

/// Whether a wish for a column is told what stands behind the sign.
fn is_column_told(alloc: Global, schema: &Schema, case: &str) -> Result<bool, NoMemory> {
    match case.split_once(" = ") {
        Some((words, told)) => {
            Ok(of_column(alloc, schema, words)?.as_slice() == told.as_bytes())
        }
        None => Ok(false),
    }
}

static TABLES: [&str; 14] = [
    "T - ShortText - = taken",
    "_T ? ? ? = BadName _T",
    "Float ? ? ? = NameTaken Float",
    "Doc ? ? ? = NameTaken Doc",
    "T ? ? ? = BadFlags ?",
    "T TABLE_DAT_KEY ShortText - = BadFlags TABLE_DAT_KEY",
    "T - ? ? = BadType ?",
    "T - - - = BadType ",
    "T - Text - = BadType Text",
    "T - Doc - = BadType Doc",
    "T TABLE_NO_KEY UInt8 - = BadType UInt8",
    "T - UInt8 ? = BadValue default_tokenizer",
    "T - UInt8 TokenDelimit = BadType UInt8",
    "T TABLE_NO_KEY - TokenBigram = BadType ",
];

#[test]
fn a_table_is_refused_for_its_first_fault(rt: HostRuntime) -> Result<(), Fail> {
    let schema = library(rt.alloc())?;
    for case in TABLES {
        assert!(rt; is_table_told(rt.alloc(), &schema, case)?, "{case}");
    }
    Ok(())
}

static NAMES_AND_FLAGS: [&str; 16] = [
    "Doc n - UInt8 - = taken",
    "? ? ? ? ? = NoSuchTable ?",
    "Doc _key ? ? ? = BadName _key",
    "Doc between ? ? ? = BadName between",
    "Doc title ? ? ? = NameTaken title",
    "Doc n ? ? ? = BadFlags ?",
    "Doc n COLUMN_SCALAR| ? ? = BadFlags COLUMN_SCALAR|",
    "Doc n WITH_POSITION ? ? = BadFlags WITH_POSITION",
    "Doc n COLUMN_SCALAR|COLUMN_SCALAR ? ? = BadFlags COLUMN_SCALAR|COLUMN_SCALAR",
    "Doc n COLUMN_VECTOR|WITH_POSITION ? ? = BadFlags COLUMN_VECTOR|WITH_POSITION",
    "Terms n WITH_POSITION|COLUMN_INDEX|WITH_POSITION ? ? = BadFlags WITH_POSITION|COLUMN_INDEX|WITH_POSITION",
    "Terms n COLUMN_INDEX|WITH_SECTION|WITH_SECTION ? ? = BadFlags COLUMN_INDEX|WITH_SECTION|WITH_SECTION",
    "Terms n - ? ? = BadFlags ",
    "Terms n COLUMN_VECTOR ? ? = BadFlags COLUMN_VECTOR",
    "Log n COLUMN_INDEX ? ? = BadFlags COLUMN_INDEX",
    "User n COLUMN_INDEX|WITH_SECTION ? ? = BadFlags COLUMN_INDEX|WITH_SECTION",
];

static TYPES_AND_SOURCES: [&str; 18] = [
    "Doc n - ? ? = BadType ?",
    "Doc n - - ? = BadType ",
    "Doc n - Log ? = BadType Log",
    "Doc n - Terms ? = BadType Terms",
    "Doc n COLUMN_VECTOR Bool ? = BadType Bool",
    "Terms n COLUMN_INDEX Pairs ? = BadType Pairs",
    "Terms n COLUMN_INDEX ShortText ? = BadType ShortText",
    "Doc n - UInt8 ? = BadSource ?",
    "Terms n COLUMN_INDEX Doc - = BadSource ",
    "Terms n COLUMN_INDEX Doc tags = BadSource tags",
    "Terms n COLUMN_INDEX Doc author = BadSource author",
    "Terms n COLUMN_INDEX User _key = BadSource _key",
    "Terms n COLUMN_INDEX Doc title,body = BadSource title,body",
    "Terms n COLUMN_INDEX|WITH_SECTION Doc title, = BadSource title,",
    "Terms n COLUMN_INDEX|WITH_SECTION Doc title,title = BadSource title,title",
    "User n COLUMN_INDEX Doc title = BadSource title",
    "User n COLUMN_INDEX Doc _key = BadSource _key",
    "User n COLUMN_INDEX Doc readers = taken",
];

#[test]
fn a_column_is_refused_for_its_names_and_flags(rt: HostRuntime) -> Result<(), Fail> {
    let schema = library(rt.alloc())?;
    for case in NAMES_AND_FLAGS {
        assert!(rt; is_column_told(rt.alloc(), &schema, case)?, "{case}");
    }
    Ok(())
}

#[test]
fn a_column_is_refused_for_its_type_and_source(rt: HostRuntime) -> Result<(), Fail> {
    let schema = library(rt.alloc())?;
    for case in TYPES_AND_SOURCES {
        assert!(rt; is_column_told(rt.alloc(), &schema, case)?, "{case}");
    }
    Ok(())
}
