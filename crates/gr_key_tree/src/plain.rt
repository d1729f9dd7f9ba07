// A plain list of keys: the simplest finite map, copied whole for each new value.
ghost use Rattle.std.specs.Prelude.{◌≡◌};
ghost use Rattle.std.specs.FinMap.{empty};

use super::entry::Entry;
use super::growing::GrowingKeys;
use super::ids::in_order;
use super::items::copied;
use super::key::{Kept, KeyRef};
use super::key_order::KeyOrder;
use super::leaf;
use gr_base::{Bytes, Ids, KeyTable, NoMemory, RecordId};
use std::alloc::Global;
use std::marker::Model;

/// Keys by their text, with nothing kept beside them.
#[derive(Drop)]
struct Whole;

impl KeyOrder for Whole {
    ghost state_of = { λ key. 0 };

    fn state(_key: &[u8]) -> u64 {
        0
    }

    fn none_before(_prefix: &[u8], _cut: &[u8]) -> bool {
        false
    }

    fn none_from(_prefix: &[u8], _cut: &[u8]) -> bool {
        false
    }
}

/// A list of keys: for tests of code that is generic over `KeyTable`. Each change moves or copies all of it.
#[derive(Drop)]
pub struct PlainKeys {
    entries: Vec<Entry<Whole>>,
    alloc: Global,
}

impl Model for PlainKeys {
    ghost use Rattle.std.specs.Coded.{coded_list, coded_ℕ};
    ghost use Rattle.std.specs.FinMap as map;
    ghost use Rattle.gr_base.specs.Keys.{KeyMap};
    ghost use Rattle.gr_key_tree.specs.Pairs.{map_of, record_code};

    ghost Value = { KeyMap };

    ghost coded = { map.code (coded_list coded_ℕ) record_code };

    ghost use Rattle.gr_key_tree.specs.Order.{key_cmp};
    ghost use Rattle.gr_key_tree.specs.Inside.Rising.{Rising};

    ghost view = { λ keys. map_of keys.entries.items };

    ghost invariant = { λ keys. Rising (key_cmp (λ key. 0)) (λ pair. pair.0) keys.entries.items };
}

impl PlainKeys {
    /// No keys.
    pub fn new(alloc: Global) -> PlainKeys
        ensures { result ≡ empty }
    {
        let entries = Vec::new(alloc);
        PlainKeys { entries, alloc }
    }
}

impl KeyTable for PlainKeys {
    ghost map = { λ keys. keys };

    fn find(&self, key: &[u8]) -> Option<RecordId> {
        leaf::find(self.entries.as_slice(), &KeyRef::new(key))
    }

    fn added(&self, alloc: Global, key: Bytes, id: RecordId) -> Result<PlainKeys, NoMemory> {
        let mut table = self.try_clone()?;
        table.find_or_add(alloc, &key, id)?;
        Ok(table)
    }

    fn removed(&self, alloc: Global, key: &[u8]) -> Result<PlainKeys, NoMemory> {
        let entries = leaf::removed(self.entries.as_slice(), alloc, &KeyRef::new(key))?;
        Ok(PlainKeys {
            entries,
            alloc: self.alloc,
        })
    }

    fn prefix_ids(&self, alloc: Global, prefix: &[u8]) -> Result<Ids, NoMemory> {
        let mut numbers = Vec::new(alloc);
        leaf::gather(self.entries.as_slice(), prefix, &mut numbers)?;
        in_order(alloc, numbers)
    }
}

impl GrowingKeys for PlainKeys {
    fn try_clone(&self) -> Result<PlainKeys, NoMemory> {
        let entries = copied(self.alloc, self.entries.as_slice())?;
        Ok(PlainKeys {
            entries,
            alloc: self.alloc,
        })
    }

    fn find_or_add(
        &mut self,
        _alloc: Global,
        key: &Bytes,
        id: RecordId,
    ) -> Result<Option<RecordId>, NoMemory> {
        let key = Kept::new(key)?;
        leaf::find_or_add(&mut self.entries, &key, id)
    }
}
