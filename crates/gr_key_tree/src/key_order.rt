// The order in which a kind of table holds its keys.
ghost use Rattle.std.specs.Prelude.{◌≡◌, IsTrue, List, ℕ};
ghost use Rattle.gr_key_tree.specs.Order.{IsNoneBefore, IsNoneFrom};

/// The order in which a kind of table holds its keys: by a number that is kept beside each key, and then by the key's bytes. A marker type implements it.
pub trait KeyOrder: Drop {
    /// The number that is kept beside a key.
    ghost state_of: { List ℕ → ℕ };

    /// The number that is kept beside a key, as a hash. It is made once for each key.
    fn state(key: &[u8]) -> u64
        ensures { result ≡ state_of key.now };

    /// Whether it is known that no key before the cut begins with the prefix.
    fn none_before(prefix: &[u8], cut: &[u8]) -> bool
        ensures { IsTrue result → IsNoneBefore state_of prefix.now cut.now };

    /// Whether it is known that neither the cut nor a key after it begins with the prefix.
    fn none_from(prefix: &[u8], cut: &[u8]) -> bool
        ensures { IsTrue result → IsNoneFrom state_of prefix.now cut.now };
}
