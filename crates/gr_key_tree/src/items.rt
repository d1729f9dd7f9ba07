// What leaves and inner nodes have in common: items whose keys rise, searched by halving and copied one by one.
ghost use Rattle.std.specs.Prelude.{◌≡◌, ◌++◌, IfOk, List, OnOk, ℕ};
ghost use Rattle.gr_key_tree.specs.Order.{key_cmp};
ghost use Rattle.gr_key_tree.specs.Inside.Rising.{IsReached, Rising};

use super::key::{Kept, KeyRef};
use super::key_order::KeyOrder;
use gr_base::NoMemory;
use std::alloc::Global;

/// What stands by a key of its own.
pub(crate) trait Item<K: KeyOrder>: Sized + Drop {
    /// The key.
    ghost key_of: { Self → List ℕ };

    /// The key, lent.
    fn key(&self) -> &Kept<K>
        ensures { result.now ≡ key_of self.now };

    /// The same item once more; what it shares stays shared.
    fn try_clone(&self) -> Result<Self, NoMemory>
        ensures { IfOk result (λ copy. copy ≡ self.now) };
}

/// How many of the items have a key that is not after this one.
pub(crate) fn reached<K: KeyOrder, T: Item<K>>(items: &[T], key: &KeyRef<K>) -> usize
    requires { Rising (key_cmp K.state_of) T.key_of items.now }
    ensures { IsReached (key_cmp K.state_of) T.key_of key.now items.now result }
{
    let mut low = 0;
    let mut high = items.len();
    while low < high {
        let middle = low + (high - low) / 2;
        if items[middle].key().is_after(key) {
            high = middle;
        } else {
            low = middle + 1;
        }
    }
    low
}

/// Puts copies of the items at the end.
pub(crate) fn copy_to<K: KeyOrder, T: Item<K>>(
    items: &[T],
    made: &mut Vec<T>,
) -> Result<(), NoMemory>
    ensures { OnOk result (made.new.items ≡ made.old.items ++ items.now) }
{
    for item in items {
        made.push(item.try_clone()?)?;
    }
    Ok(())
}

/// Copies of the items, with no room beyond them.
pub(crate) fn copied<K: KeyOrder, T: Item<K>>(
    alloc: Global,
    items: &[T],
) -> Result<Vec<T>, NoMemory>
    ensures { IfOk result (λ made. made.items ≡ items.now) }
{
    let mut made = Vec::with_capacity(alloc, items.len())?;
    copy_to(items, &mut made)?;
    Ok(made)
}

/// Copies of both, the second behind the first.
pub(crate) fn joined<K: KeyOrder, T: Item<K>>(
    alloc: Global,
    left: &[T],
    right: &[T],
) -> Result<Vec<T>, NoMemory>
    ensures { IfOk result (λ made. made.items ≡ left.now ++ right.now) }
{
    let mut made = copied(alloc, left)?;
    copy_to(right, &mut made)?;
    Ok(made)
}
