// Entries by rising keys: what leaves hold.
ghost use Rattle.std.specs.Prelude.{◌≡◌, ◌+◌, ◌++◌, ◌≤◌, IfOk, OnOk, is_some, length, true};
ghost use Rattle.gr_key_tree.specs.Order.{key_cmp};
ghost use Rattle.gr_key_tree.specs.Pairs.{lookup};
ghost use Rattle.gr_key_tree.specs.Inside.Changes.{Answers, Removes};
ghost use Rattle.gr_key_tree.specs.Inside.Places.{IsLocated};
ghost use Rattle.gr_key_tree.specs.Inside.Rising.{Rising};
ghost use Rattle.gr_key_tree.specs.Inside.Parts.{IsLeaf, IsPart, leaf_of};
ghost use Rattle.gr_key_tree.specs.Inside.Held.{numbers_with};

use super::child::Child;
use super::entry::Entry;
use super::items::{Item, copied, joined, reached};
use super::key::{Kept, KeyRef};
use super::key_order::KeyOrder;
use super::node::Node;
use gr_base::{NoMemory, RecordId};
use std::alloc::Global;

/// Where a key stands, or would stand.
pub(crate) fn locate<K: KeyOrder>(items: &[Entry<K>], key: &KeyRef<K>) -> Result<usize, usize>
    requires { Rising (key_cmp K.state_of) (λ pair. pair.0) items.now }
    ensures { IsLocated (key_cmp K.state_of) key.now items.now result }
{
    let count = reached(items, key);
    if count == 0 {
        return Err(0);
    }
    if items[count - 1].key().is(key) {
        Ok(count - 1)
    } else {
        Err(count)
    }
}

/// The id of a key, where the key is there.
pub(crate) fn find<K: KeyOrder>(items: &[Entry<K>], key: &KeyRef<K>) -> Option<RecordId>
    requires { Rising (key_cmp K.state_of) (λ pair. pair.0) items.now }
    ensures { result ≡ lookup items.now key.now }
{
    match locate(items, key) {
        Ok(at) => Some(items[at].id()),
        Err(_) => None,
    }
}

/// The id of a key that is there; otherwise puts it in.
pub(crate) fn find_or_add<K: KeyOrder>(
    items: &mut Vec<Entry<K>>,
    key: &Kept<K>,
    id: RecordId,
) -> Result<Option<RecordId>, NoMemory>
    requires { Rising (key_cmp K.state_of) (λ pair. pair.0) items.old.items }
    ensures answers { Answers (key_cmp K.state_of) items.old.items key.now id items.new.items result }
    ensures grows { length items.old.items ≤ length items.new.items }
    ensures by_one { length items.new.items ≤ length items.old.items + 1 }
{
    match locate(items.as_slice(), &key.lent()) {
        Ok(at) => Ok(Some(items[at].id())),
        Err(at) => {
            items.insert(at, Entry::new(key.try_clone()?, id))?;
            Ok(None)
        }
    }
}

/// The entries without that of a key.
pub(crate) fn removed<K: KeyOrder>(
    items: &[Entry<K>],
    alloc: Global,
    key: &KeyRef<K>,
) -> Result<Vec<Entry<K>>, NoMemory>
    requires rising { Rising (key_cmp K.state_of) (λ pair. pair.0) items.now }
    requires there { is_some (lookup items.now key.now) ≡ true }
    ensures { IfOk result (λ less. Removes (key_cmp K.state_of) items.now key.now less.items) }
{
    match locate(items, key) {
        Ok(at) => joined(alloc, &items[..at], &items[at + 1..]),
        Err(_) => unreachable!(),
    }
}

/// Entries, copied into a node under another one.
pub(crate) fn part<K: KeyOrder>(alloc: Global, items: &[Entry<K>]) -> Result<Child<K>, NoMemory>
    requires { IsLeaf (key_cmp K.state_of) items.now }
    ensures { IfOk result (λ child. IsPart (leaf_of items.now) child.cut child.node) }
{
    Node::leaf(copied(alloc, items)?).part(alloc)
}

/// Puts the ids of the keys that begin with the prefix at the end.
pub(crate) fn gather<K: KeyOrder>(
    items: &[Entry<K>],
    prefix: &[u8],
    numbers: &mut Vec<u32>,
) -> Result<(), NoMemory>
    ensures { OnOk result (numbers.new.items ≡ numbers.old.items ++ numbers_with prefix.now items.now) }
{
    for item in items {
        if item.key().bytes().starts_with(prefix) {
            numbers.push(item.id().0)?;
        }
    }
    Ok(())
}
