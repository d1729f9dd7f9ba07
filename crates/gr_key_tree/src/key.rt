// Keys with the numbers that are kept beside them, lent and kept. Both are seen as their bytes.
ghost use Rattle.std.specs.Prelude.{◌≡◌, IfOk};
ghost use Rattle.std.specs.Ordering.{is_eq, is_gt};
ghost use Rattle.gr_key_tree.specs.Order.{key_cmp};

use super::key_order::KeyOrder;
use gr_base::{Bytes, NoMemory};
use std::cmp::Ordering;
use std::marker::{Model, PhantomData};

/// A key that is lent.
#[derive(Drop)]
pub(crate) struct KeyRef<'a, K: KeyOrder> {
    bytes: &'a [u8],
    state: u64,
    order: PhantomData<K>,
}

impl<'a, K: KeyOrder> Model for KeyRef<'a, K> {
    ghost use Rattle.std.specs.Prelude.{◌≡◌, List, ℕ};

    ghost Value = { List ℕ };

    ghost view = { λ key. key.bytes.now };

    ghost invariant = { λ key. key.state ≡ K.state_of key.bytes.now };
}

impl<'a, K: KeyOrder> KeyRef<'a, K> {
    /// The key of these bytes.
    pub(crate) fn new(bytes: &'a [u8]) -> KeyRef<'a, K>
        ensures { result ≡ bytes.now }
    {
        KeyRef {
            bytes,
            state: K::state(bytes),
            order: PhantomData,
        }
    }
}

/// A key that is kept.
#[derive(Drop)]
pub(crate) struct Kept<K: KeyOrder> {
    text: Bytes,
    state: u64,
    order: PhantomData<K>,
}

impl<K: KeyOrder> Model for Kept<K> {
    ghost use Rattle.std.specs.Prelude.{◌≡◌, List, ℕ};

    ghost Value = { List ℕ };

    ghost view = { λ key. key.text };

    ghost invariant = { λ key. key.state ≡ K.state_of key.text };
}

impl<K: KeyOrder> Kept<K> {
    /// Keeps a key; its text is shared.
    pub(crate) fn new(text: &Bytes) -> Result<Kept<K>, NoMemory>
        ensures { IfOk result (λ kept. kept ≡ text.now) }
    {
        Ok(Kept {
            text: text.try_clone()?,
            state: K::state(text.as_slice()),
            order: PhantomData,
        })
    }

    /// The bytes, lent.
    pub(crate) fn bytes(&self) -> &[u8]
        ensures { result.now ≡ self.now }
    {
        self.text.as_slice()
    }

    /// The key, lent.
    pub(crate) fn lent(&self) -> KeyRef<'_, K>
        ensures { result ≡ self.now }
    {
        KeyRef {
            bytes: self.text.as_slice(),
            state: self.state,
            order: PhantomData,
        }
    }

    /// The same key once more.
    pub(crate) fn try_clone(&self) -> Result<Kept<K>, NoMemory>
        ensures { IfOk result (λ copy. copy ≡ self.now) }
    {
        Ok(Kept {
            text: self.text.try_clone()?,
            state: self.state,
            order: PhantomData,
        })
    }

    /// How this key stands to another one.
    #[tactic(auto, unfolding(crate::specs::Order::key_cmp))]
    pub(crate) fn compare(&self, other: &KeyRef<K>) -> Ordering
        ensures { result ≡ key_cmp K.state_of self.now other.now }
    {
        match self.state.cmp(&other.state) {
            Ordering::Equal => self.text.as_slice().cmp(other.bytes),
            apart => apart,
        }
    }

    /// Whether this key comes after another one.
    pub(crate) fn is_after(&self, other: &KeyRef<K>) -> bool
        ensures { result ≡ is_gt (key_cmp K.state_of self.now other.now) }
    {
        match self.compare(other) {
            Ordering::Greater => true,
            _ => false,
        }
    }

    /// Whether this key and another one are the same.
    pub(crate) fn is(&self, other: &KeyRef<K>) -> bool
        ensures { result ≡ is_eq (key_cmp K.state_of self.now other.now) }
    {
        match self.compare(other) {
            Ordering::Equal => true,
            _ => false,
        }
    }
}
