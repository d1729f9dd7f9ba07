// Key tables that are shared, and that grow in place.
ghost use Rattle.std.specs.Prelude.{◌≡◌, IfOk};
ghost use Rattle.gr_key_tree.specs.Growing.{FindsOrAdds};

use gr_base::{Bytes, KeyTable, NoMemory, RecordId};
use std::alloc::Global;

/// A table of keys that can be shared as it is, and that grows in place where nobody shares it.
pub trait GrowingKeys: KeyTable {
    /// The same table once more. What both hold is shared, so this copies a pointer.
    fn try_clone(&self) -> Result<Self, NoMemory>
        ensures { IfOk result (λ copy. Self.map copy ≡ Self.map self.now) };

    /// The id of a key where the key is there, found in one descent; otherwise `None`, and the key is in the table from now on, with this id.
    /// The key is shared, and not copied. What other tables share is copied first, and they stay as they are; the rest is written in place.
    fn find_or_add(
        &mut self,
        alloc: Global,
        key: &Bytes,
        id: RecordId,
    ) -> Result<Option<RecordId>, NoMemory>
        ensures { FindsOrAdds (Self.map self.old) key.now id (Self.map self.new) result };
}
