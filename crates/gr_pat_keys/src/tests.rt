// The same cases for each kind of key table, through the trait.
ghost use Rattle.std.specs.Prelude.{◌≡◌, IfOk, is_some, true};
ghost use Rattle.std.specs.FinMap.{get};

use super::PatKeys;
use gr_base::{Bytes, KeyTable, RecordId};
use gr_hash_keys::HashKeys;
use gr_key_tree::{GrowingKeys, PlainKeys};
use std::alloc::Global;
use std::test::Fail;

// A key and its id.
#[derive(Drop)]
struct Named {
    key: Bytes,
    id: RecordId,
}

fn name(alloc: Global, named: &mut Vec<Named>, key: &[u8], id: u32) -> Result<(), Fail> {
    let key = Bytes::from_slice(alloc, key)?;
    let id = RecordId(id);
    named.push(Named { key, id })?;
    Ok(())
}

// Keys that are prefixes of one another, with bytes 0, a long one, and twenty that share a prefix. Their ids do not rise with them.
fn all_named(alloc: Global) -> Result<Vec<Named>, Fail> {
    let mut named = Vec::new(alloc);
    name(alloc, &mut named, b"", 90)?;
    name(alloc, &mut named, b"abc", 82)?;
    name(alloc, &mut named, b"a", 84)?;
    name(alloc, &mut named, b"ab", 83)?;
    name(alloc, &mut named, b"a\0", 81)?;
    name(alloc, &mut named, b"\0", 72)?;
    name(alloc, &mut named, b"\0\0", 71)?;
    name(alloc, &mut named, &[7; 4096], 60)?;
    for last in 0..20u8 {
        let mut key = b"the prefix of twenty keys ".to_vec(alloc)?;
        key.push(40 - last)?;
        name(alloc, &mut named, key.as_slice(), last as u32 + 1)?;
    }
    Ok(named)
}

// The table with a key more, or as it was where the key is there already: proved once, from the trait's clauses.
fn with_key<K: KeyTable + Drop>(alloc: Global, table: K, named: &Named) -> Result<K, Fail>
    ensures { IfOk result (λ made. is_some (get (K.map made) named.now.key) ≡ true) }
{
    if table.find(named.key.as_slice()).is_some() {
        return Ok(table);
    }
    Ok(table.added(alloc, named.key.try_clone()?, named.id)?)
}

// Whether a key that is found or added in place is there for this table alone, and found again with its first id.
fn grows_alone<K: GrowingKeys + Drop>(alloc: Global, table: &K) -> Result<bool, Fail> {
    let key = Bytes::from_slice(alloc, b"the prefix of one more key")?;
    let mut copy = table.try_clone()?;
    let new = copy.find_or_add(alloc, &key, RecordId(77))?;
    let again = copy.find_or_add(alloc, &key, RecordId(78))?;
    let there = copy.find(key.as_slice());
    Ok(
        new.is_none()
            && again == Some(RecordId(77))
            && there == Some(RecordId(77))
            && table.find(key.as_slice()).is_none(),
    )
}

fn filled<K: KeyTable + Drop>(alloc: Global, empty: K, all: &[Named]) -> Result<K, Fail> {
    let mut table = empty;
    for named in all {
        table = with_key(alloc, table, named)?;
    }
    Ok(table)
}

// How many of the keys are found with their ids.
fn found<K: KeyTable>(table: &K, all: &[Named]) -> usize {
    all.iter()
        .filter(|named| table.find(named.key.as_slice()) == Some(named.id))
        .count()
}

fn lacks<K: KeyTable>(table: &K) -> bool {
    table.find(b"abcd").is_none()
        && table.find(b"\0\0\0").is_none()
        && table.find(&[7; 4095]).is_none()
        && table.find(b"the prefix of twenty keys ").is_none()
}

// Whether each key, taken out and put in again, is gone and back, with the others and the old table as before.
fn is_lost_and_regained<K: KeyTable + Drop>(
    alloc: Global,
    table: &K,
    all: &[Named],
) -> Result<bool, Fail> {
    for named in all {
        if table.find(named.key.as_slice()).is_none() {
            return Ok(false);
        }
        let less = table.removed(alloc, named.key.as_slice())?;
        let gone = less.find(named.key.as_slice()).is_none() && found(&less, all) == 27;
        let back = with_key(alloc, less, named)?;
        if !gone || found(&back, all) != 28 || found(table, all) != 28 {
            return Ok(false);
        }
    }
    Ok(true)
}

// Whether the table, which threads may share, is empty once each key is taken out.
fn is_emptied<K: KeyTable + Drop + Send + Sync>(
    alloc: Global,
    table: K,
    all: &[Named],
) -> Result<bool, Fail> {
    let mut rest = table;
    for named in all {
        if rest.find(named.key.as_slice()).is_some() {
            rest = rest.removed(alloc, named.key.as_slice())?;
        }
    }
    Ok(found(&rest, all) == 0 && rest.prefix_ids(alloc, b"")?.as_slice().is_empty())
}

fn has_ids<K: KeyTable>(
    alloc: Global,
    table: &K,
    prefix: &[u8],
    wanted: &[u32],
) -> Result<bool, Fail> {
    let ids = table.prefix_ids(alloc, prefix)?;
    let mut numbers = Vec::new(alloc);
    for id in ids.as_slice() {
        numbers.push(id.0)?;
    }
    Ok(numbers.as_slice() == wanted)
}

// Whether the ids of each prefix are those wanted.
fn finds_prefixes<K: KeyTable>(alloc: Global, table: &K) -> Result<bool, Fail> {
    let twenty = b"the prefix of twenty keys ";
    let numbers = [
        1, 2, 3, 4, 5, 6, 7, 8, 9, 10, 11, 12, 13, 14, 15, 16, 17, 18, 19, 20, 60, 71, 72, 81, 82,
        83, 84, 90,
    ];
    Ok(
        has_ids(alloc, table, b"", &numbers)?
            && has_ids(alloc, table, twenty, &numbers[..20])?
            && has_ids(alloc, table, b"a", &[81, 82, 83, 84])?
            && has_ids(alloc, table, b"ab", &[82, 83])?
            && has_ids(alloc, table, b"\0", &[71, 72])?
            && has_ids(alloc, table, &[7; 4096], &[60])?
            && has_ids(alloc, table, b"abcd", &[])?
            && has_ids(alloc, table, b"b", &[])?,
    )
}

#[test]
fn plain_keys_are_a_finite_map(rt: HostRuntime) -> Result<(), Fail> {
    let alloc = rt.alloc();
    let all = all_named(alloc)?;
    let table = filled(alloc, PlainKeys::new(alloc), &all)?;
    assert_eq!(rt; found(&table, &all), 28);
    assert!(rt; grows_alone(alloc, &table)?);
    assert!(rt; lacks(&table));
    assert!(rt; is_lost_and_regained(alloc, &table, &all)?);
    assert!(rt; finds_prefixes(alloc, &table)?);
    assert!(rt; is_emptied(alloc, table, &all)?);
    Ok(())
}

#[test]
fn hash_keys_are_a_finite_map(rt: HostRuntime) -> Result<(), Fail> {
    let alloc = rt.alloc();
    let all = all_named(alloc)?;
    let table = filled(alloc, HashKeys::new(), &all)?;
    assert_eq!(rt; found(&table, &all), 28);
    assert!(rt; grows_alone(alloc, &table)?);
    assert!(rt; lacks(&table));
    assert!(rt; is_lost_and_regained(alloc, &table, &all)?);
    assert!(rt; finds_prefixes(alloc, &table)?);
    assert!(rt; is_emptied(alloc, table, &all)?);
    Ok(())
}

#[test]
fn pat_keys_are_a_finite_map(rt: HostRuntime) -> Result<(), Fail> {
    let alloc = rt.alloc();
    let all = all_named(alloc)?;
    let table = filled(alloc, PatKeys::new(), &all)?;
    assert_eq!(rt; found(&table, &all), 28);
    assert!(rt; grows_alone(alloc, &table)?);
    assert!(rt; lacks(&table));
    assert!(rt; is_lost_and_regained(alloc, &table, &all)?);
    assert!(rt; finds_prefixes(alloc, &table)?);
    assert!(rt; is_emptied(alloc, table, &all)?);
    Ok(())
}
