// Load data by hand, with memory at hand.
use super::*;
use gr_base::{Bytes, FaultKind, NoMemory, TableNo};
use gr_schema::{ColumnWish, Schema, TableWish};
use std::alloc::Global;
use std::test::Fail;

fn bytes(alloc: Global, text: &str) -> Result<Bytes, NoMemory> {
    Bytes::from_slice(alloc, text.as_bytes())
}

/// One table, keyed by short texts.
fn site(alloc: Global) -> Result<Schema, NoMemory> {
    let schema = Schema::new();
    let wish = TableWish {
        name: bytes(alloc, "Site")?,
        flags: bytes(alloc, "")?,
        key_type: bytes(alloc, "ShortText")?,
        tokenizer: bytes(alloc, "")?,
    };
    match schema.check_table(alloc, &wish) {
        Ok(def) => schema.with_table(alloc, def),
        Err(_) => Ok(schema),
    }
}

/// The table with a column of small numbers.
fn site_with_number(alloc: Global) -> Result<Schema, NoMemory> {
    let schema = site(alloc)?;
    let wish = ColumnWish {
        table: bytes(alloc, "Site")?,
        name: bytes(alloc, "n")?,
        flags: bytes(alloc, "")?,
        kind: bytes(alloc, "UInt8")?,
        source: bytes(alloc, "")?,
    };
    match schema.check_column(alloc, &wish) {
        Ok((table, def)) => {
            if schema.column_count(table) >= 1 << 31 {
                return Ok(schema);
            }
            schema.with_column(alloc, table, def)
        }
        Err(_) => Ok(schema),
    }
}

#[test]
fn an_object_asks_for_a_put_with_its_number(rt: HostRuntime) -> Result<(), Fail> {
    let schema = site_with_number(rt.alloc())?;
    let site = TableNo(0);
    assert!(rt; schema.def(site).is_some());
    let text = r#"[{"_key":"a","n":7},["b"]]"#;
    let loaded = rows(rt.alloc(), &schema, site, None, text)?;
    let numbers = loaded
        .puts
        .as_slice()
        .first()
        .map(|put| put.settings.as_slice().len());
    assert_eq!(rt; numbers, Some(1));
    Ok(())
}

#[test]
fn arrays_ask_for_a_put_each(rt: HostRuntime) -> Result<(), Fail> {
    let schema = site_with_number(rt.alloc())?;
    let site = TableNo(0);
    assert!(rt; schema.def(site).is_some());
    let text = r#"[["n","_key"],[7,"a"],[null,"b"],[8,"c"],[256,"d"]]"#;
    let loaded = rows(rt.alloc(), &schema, site, None, text)?;
    assert_eq!(rt; loaded.puts.as_slice().len(), 3);
    Ok(())
}

#[test]
fn a_listed_name_of_no_column_is_refused(rt: HostRuntime) -> Result<(), Fail> {
    let schema = site_with_number(rt.alloc())?;
    let site = TableNo(0);
    assert!(rt; schema.def(site).is_some());
    let loaded = rows(rt.alloc(), &schema, site, Some("_key, n ,m"), "[]")?;
    let kind = loaded.fault.map(|fault| fault.kind);
    assert_eq!(rt; kind, Some(FaultKind::NoSuchColumn));
    Ok(())
}
