// The ids of keys, by the kind of table.
ghost use Rattle.std.specs.Prelude.{◌≡◌, None, IfOk, OnOk, OnErr, is_some, true};
ghost use Rattle.std.specs.FinMap.{empty, get, insert, remove};
ghost use Rattle.gr_base.specs.Keys.{AreFound};
ghost use Rattle.gr_table.specs.Inside.Bytes.{key_bytes};
ghost use Rattle.gr_table.specs.Inside.Trees.{map_of};

use crate::key_bytes::key_bytes;
use gr_base::{Ids, KeyTable, NoMemory, RecordId};
use gr_hash_keys::HashKeys;
use gr_key_tree::GrowingKeys;
use gr_pat_keys::PatKeys;
use gr_schema::TableKind;
use gr_values::Key;
use std::alloc::Global;

/// From the bytes of keys to ids. A changed tree shares all but a path with the old one.
#[derive(Drop)]
pub(crate) enum KeyTree {
    /// By a hash.
    Hash(HashKeys),
    /// By the bytes in order.
    Pat(PatKeys),
}

impl KeyTree {
    /// No keys; takes no memory. A table without keys never puts one in.
    pub(crate) fn new(kind: TableKind) -> KeyTree
        ensures { map_of result ≡ empty }
    {
        match kind {
            TableKind::NoKey | TableKind::Hash => KeyTree::Hash(HashKeys::new()),
            TableKind::Pat => KeyTree::Pat(PatKeys::new()),
        }
    }

    /// The same once more. It fails only where a count of owners is full.
    pub(crate) fn try_clone(&self) -> Result<KeyTree, NoMemory>
        ensures { IfOk result (λ copy. map_of copy ≡ map_of self.now) }
    {
        match self {
            KeyTree::Hash(keys) => Ok(KeyTree::Hash(keys.try_clone()?)),
            KeyTree::Pat(keys) => Ok(KeyTree::Pat(keys.try_clone()?)),
        }
    }

    /// The id that a key's bytes lead to.
    pub(crate) fn find(&self, key: &Key) -> Option<RecordId>
        ensures { result ≡ get (map_of self.now) (key_bytes key.now) }
    {
        match key {
            Key::Number(number) => self.find_bytes(&number.to_be_bytes()),
            Key::Text(text) => self.find_bytes(text.as_slice()),
        }
    }

    fn find_bytes(&self, bytes: &[u8]) -> Option<RecordId>
        ensures { result ≡ get (map_of self.now) bytes.now }
    {
        match self {
            KeyTree::Hash(keys) => keys.find(bytes),
            KeyTree::Pat(keys) => keys.find(bytes),
        }
    }

    /// Puts a key in, which must not be there yet. What nobody shares is written in place.
    pub(crate) fn add(&mut self, alloc: Global, key: &Key, id: RecordId) -> Result<(), NoMemory>
        requires { get (map_of self.old) (key_bytes key.now) ≡ None }
        ensures ok { OnOk result (map_of self.new ≡ insert (map_of self.old) (key_bytes key.now) id) }
        ensures err { OnErr result (map_of self.new ≡ map_of self.old) }
    {
        let bytes = key_bytes(alloc, key)?;
        match self {
            KeyTree::Hash(keys) => keys.find_or_add(alloc, &bytes, id)?,
            KeyTree::Pat(keys) => keys.find_or_add(alloc, &bytes, id)?,
        };
        Ok(())
    }

    /// The tree without a key, which must be there.
    pub(crate) fn without(&self, alloc: Global, key: &Key) -> Result<KeyTree, NoMemory>
        requires { is_some (get (map_of self.now) (key_bytes key.now)) ≡ true }
        ensures { IfOk result (λ tree. map_of tree ≡ remove (map_of self.now) (key_bytes key.now)) }
    {
        let bytes = key_bytes(alloc, key)?;
        match self {
            KeyTree::Hash(keys) => Ok(KeyTree::Hash(keys.removed(alloc, bytes.as_slice())?)),
            KeyTree::Pat(keys) => Ok(KeyTree::Pat(keys.removed(alloc, bytes.as_slice())?)),
        }
    }

    /// The ids of all keys whose bytes begin so, each once, in ascending order. By a hash each key is looked at.
    pub(crate) fn prefix_ids(&self, alloc: Global, prefix: &[u8]) -> Result<Ids, NoMemory>
        ensures { IfOk result (λ ids. AreFound (map_of self.now) prefix.now ids) }
    {
        match self {
            KeyTree::Hash(keys) => keys.prefix_ids(alloc, prefix),
            KeyTree::Pat(keys) => keys.prefix_ids(alloc, prefix),
        }
    }
}
