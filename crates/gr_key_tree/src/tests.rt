// Keys of which the same number is kept, as with equal hashes.
use super::{GrowingKeys, KeyOrder, Tree};
use gr_base::{Bytes, KeyTable, RecordId};
use std::alloc::Global;
use std::test::Fail;

// The same number for all keys.
#[derive(Drop)]
struct EqualHashes;

impl KeyOrder for EqualHashes {
    ghost state_of = { λ key. 5 };

    fn state(_key: &[u8]) -> u64 {
        5
    }

    fn none_before(_prefix: &[u8], _cut: &[u8]) -> bool {
        false
    }

    fn none_from(_prefix: &[u8], _cut: &[u8]) -> bool {
        false
    }
}

fn filled(alloc: Global) -> Result<Tree<EqualHashes>, Fail> {
    let mut table: Tree<EqualHashes> = Tree::new();
    for i in 0..200u8 {
        let key = Bytes::from_slice(alloc, &[b'k', i])?;
        table.find_or_add(alloc, &key, RecordId(i as u32))?;
    }
    Ok(table)
}

fn found(table: &Tree<EqualHashes>) -> usize {
    (0..200u8)
        .filter(|i| table.find(&[b'k', *i]) == Some(RecordId(*i as u32)))
        .count()
}

#[test]
fn keys_of_equal_hash_part_by_their_text(rt: HostRuntime) -> Result<(), Fail> {
    let alloc = rt.alloc();
    let table = filled(alloc)?;
    assert_eq!(rt; found(&table), 200);
    assert_eq!(rt; table.levels(), 2);
    assert!(rt; table.find(b"k").is_none());
    assert!(rt; table.find(&[b'k', 99]).is_some());
    let less = table.removed(alloc, &[b'k', 99])?;
    assert_eq!(rt; found(&less), 199);
    assert_eq!(rt; found(&table), 200);
    assert_eq!(rt; table.prefix_ids(alloc, b"k")?.as_slice().len(), 200);
    Ok(())
}
