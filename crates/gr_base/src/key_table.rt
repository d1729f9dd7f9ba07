// Finite maps from keys to the ids of records.
ghost use Rattle.std.specs.Prelude.{◌≡◌, None, IfOk, IfSome, is_some, true};
ghost use Rattle.std.specs.FinMap.{get, insert, remove};
ghost use Rattle.gr_base.specs.Keys.{AreFound, KeyMap};

use super::{Bytes, Ids, NoMemory, RecordId};
use std::alloc::Global;

/// A finite map from byte strings to the ids of records. A changed map is a new value, and the old one stays.
pub trait KeyTable: Sized {
    /// The map.
    ghost map: { Self → KeyMap };

    /// The id of a key, where the key is there.
    fn find(&self, key: &[u8]) -> Option<RecordId>
        ensures { result ≡ get (map self.now) key.now };

    /// The map with a key more, which must not be there yet. The key is shared, and not copied.
    fn added(&self, alloc: Global, key: Bytes, id: RecordId) -> Result<Self, NoMemory>
        requires { get (map self.now) key ≡ None }
        ensures { IfOk result (λ table. map table ≡ insert (map self.now) key id) };

    /// The map without a key, which must be there.
    fn removed(&self, alloc: Global, key: &[u8]) -> Result<Self, NoMemory>
        requires { is_some (get (map self.now) key.now) ≡ true }
        ensures { IfOk result (λ table. map table ≡ remove (map self.now) key.now) };

    /// The ids of all keys that begin with the prefix, each once, in ascending order.
    fn prefix_ids(&self, alloc: Global, prefix: &[u8]) -> Result<Ids, NoMemory>
        ensures { IfOk result (λ ids. AreFound (map self.now) prefix.now ids) };
}
