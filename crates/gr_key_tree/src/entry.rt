// Entries of leaves. An entry is seen as the pair of its key and its id.
ghost use Rattle.std.specs.Prelude.{◌≡◌, IfOk};

use super::items::Item;
use super::key::Kept;
use super::key_order::KeyOrder;
use gr_base::{NoMemory, RecordId};
use std::marker::Model;

/// A key and its id.
#[derive(Drop)]
pub(crate) struct Entry<K: KeyOrder> {
    key: Kept<K>,
    id: RecordId,
}

impl<K: KeyOrder> Model for Entry<K> {
    ghost use Rattle.gr_key_tree.specs.Pairs.{Pair};

    ghost Value = { Pair };

    ghost view = { λ entry. (entry.key, entry.id) };
}

impl<K: KeyOrder> Entry<K> {
    /// The entry of a key and an id.
    pub(crate) fn new(key: Kept<K>, id: RecordId) -> Entry<K>
        ensures { result ≡ (key, id) }
    {
        Entry { key, id }
    }

    /// The id.
    pub(crate) fn id(&self) -> RecordId
        ensures { result ≡ self.now.1 }
    {
        self.id
    }
}

impl<K: KeyOrder> Item<K> for Entry<K> {
    ghost key_of = { λ pair. pair.0 };

    fn key(&self) -> &Kept<K> {
        &self.key
    }

    fn try_clone(&self) -> Result<Entry<K>, NoMemory> {
        let key = self.key.try_clone()?;
        Ok(Entry { key, id: self.id })
    }
}
