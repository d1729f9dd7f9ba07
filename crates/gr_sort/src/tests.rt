// What no clause says: keys that are read and hits that are sorted, where there is memory.
use crate::{SortKey, SortOrder, order, sorted};
use gr_base::{Bytes, ColumnNo, Failure, ListOf, NoMemory, RecordId, TableNo};
use gr_expr::Rows;
use gr_print::{OutItem, Span};
use gr_schema::{Schema, TableWish};
use gr_values::{CellView, DataType, Field, Key, Path, Shape};
use std::alloc::Global;
use std::test::Fail;

/// Tables without records.
struct NoRows;

impl Rows for NoRows {
    ghost use Rattle.std.specs.Prelude.{[]};

    ghost tables = { λ rows. [] };

    fn is_alive(&self, _table: TableNo, _id: RecordId) -> bool {
        false
    }

    fn key(&self, _table: TableNo, _id: RecordId) -> Option<&Key> {
        None
    }

    fn cell(&self, _table: TableNo, _id: RecordId, _column: ColumnNo) -> Option<CellView<'_>> {
        None
    }

    fn find(&self, _table: TableNo, _key: &Key) -> Option<RecordId> {
        None
    }

    fn last_id(&self, _table: TableNo) -> RecordId {
        RecordId(0)
    }
}

fn word(alloc: Global, word: &str) -> Result<Bytes, NoMemory> {
    Bytes::from_slice(alloc, word.as_bytes())
}

/// A schema with a table without columns.
fn schema(alloc: Global) -> Result<Schema, NoMemory> {
    let wish = TableWish {
        name: word(alloc, "Doc")?,
        flags: word(alloc, "TABLE_NO_KEY")?,
        key_type: word(alloc, "")?,
        tokenizer: word(alloc, "")?,
    };
    let schema = Schema::new();
    match schema.check_table(alloc, &wish) {
        Ok(def) => schema.with_table(alloc, def),
        Err(_) => Ok(schema),
    }
}

/// Keys as they are shown here: the sign, and whether they go by a path or by the score.
fn shown(alloc: Global, keys: &[SortKey]) -> Result<Vec<u8>, NoMemory> {
    let mut text = Vec::new(alloc);
    for key in keys {
        text.push(if key.descending { b'-' } else { b'+' })?;
        text.push(match key.item {
            OutItem::At(_) => b'p',
            OutItem::Score => b's',
        })?;
    }
    Ok(text)
}

/// The keys that a list asks for, or the name of its first fault.
fn asked(alloc: Global, text: &str) -> Result<Vec<u8>, NoMemory> {
    let schema = schema(alloc)?;
    let table = TableNo(0);
    if schema.def(table).is_none() {
        return Ok(Vec::new(alloc));
    }
    match order(alloc, &schema, table, text) {
        Ok(keys) => shown(alloc, keys.as_slice()),
        Err(Failure::Refused(fault)) => Ok(Vec::from_slice(alloc, fault.name.as_slice())?),
        Err(Failure::NoMemory) => Err(NoMemory),
    }
}

#[test]
fn signs_are_read_and_empty_keys_dropped(rt: HostRuntime) -> Result<(), Fail> {
    let keys = asked(rt.alloc(), "-_id,\t, +_score ,_id")?;
    assert_eq!(rt; keys.as_slice(), b"-p+s+p".as_slice());
    Ok(())
}

#[test]
fn a_name_is_told_without_its_sign(rt: HostRuntime) -> Result<(), Fail> {
    let told = asked(rt.alloc(), "_id,- n,z")?;
    assert_eq!(rt; told.as_slice(), b" n".as_slice());
    Ok(())
}

/// By descending score, and then by descending id.
fn keys(alloc: Global) -> Result<SortOrder, NoMemory> {
    let path = Path {
        table: TableNo(0),
        through: ListOf::from_vec(Vec::new(alloc)),
        last: Field::Id,
        shape: Shape {
            list: false,
            of: DataType::UInt32,
            reference: false,
        },
        to: None,
    };
    let score = SortKey {
        item: OutItem::Score,
        descending: true,
    };
    let id = SortKey {
        item: OutItem::At(path),
        descending: true,
    };
    Ok(ListOf::from_vec(vec![in alloc; score, id]?))
}

#[test]
fn the_highest_score_comes_first(rt: HostRuntime) -> Result<(), Fail> {
    let alloc = rt.alloc();
    let hits = [(RecordId(1), 5), (RecordId(2), 7), (RecordId(3), 5)];
    let span = Span { first: 1, count: 1 };
    let first = sorted(alloc, &NoRows, keys(alloc)?.as_slice(), &hits, span)?;
    assert_eq!(rt; first.as_slice(), [(RecordId(3), 5)].as_slice());
    Ok(())
}
