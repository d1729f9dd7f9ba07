// Keys by a hash: a persistent tree in the order of the keys' hashes.
#![tactic(auto)]

mod hash;

ghost use Rattle.std.specs.Prelude.{◌≡◌};

use gr_key_tree::{KeyOrder, Tree};
use hash::key_hash;

/// Keys by their hash, and keys of equal hash by their text.
#[derive(Drop)]
pub struct HashOrder;

/// A finite map from keys to ids. `prefix_ids` walks all keys.
pub type HashKeys = Tree<HashOrder>;

impl KeyOrder for HashOrder {
    ghost use Rattle.gr_hash_keys.specs.Hash.{key_hash};

    ghost state_of = { key_hash };

    fn state(key: &[u8]) -> u64 {
        key_hash(key)
    }

    fn none_before(_prefix: &[u8], _cut: &[u8]) -> bool {
        false
    }

    fn none_from(_prefix: &[u8], _cut: &[u8]) -> bool {
        false
    }
}
