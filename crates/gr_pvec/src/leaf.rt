// Leaves: up to 32 shared elements side by side.
ghost use Rattle.std.specs.Prelude.{◌≡◌, ◌<◌, ◌≤◌, ◌++◌, ◌∷◌, [], IfOk, OnOk, OnErr, map, slice_get, slice_set, length};
ghost use Rattle.std.specs.Option.{option_copied};
ghost use Rattle.std.specs.Arc.{arc_value};
ghost use Rattle.gr_pvec.specs.Run.{IsRun};

use super::shares::{owned, shared};
use gr_base::NoMemory;
use std::alloc::Global;
use std::marker::Model;
use std::sync::Arc;

/// The bits of a place that say which of a leaf's elements, or of a node's parts, is meant.
pub(crate) const BITS: u32 = 5;

/// The most elements that a leaf holds, and the most parts that a node has.
pub(crate) const ROOM: usize = 32;

/// Up to `ROOM` elements.
#[derive(Drop)]
pub(crate) struct Leaf<T> {
    items: Vec<Arc<T>>,
}

impl<T> Model for Leaf<T> {
    ghost use Rattle.std.specs.Prelude.{List, map, length, ◌≤◌};
    ghost use Rattle.std.specs.Coded.{coded_list};
    ghost use Rattle.std.specs.Arc.{arc_value};
    ghost use Rattle.gr_pvec.specs.declared.leaf.TheConstants.{ROOM};

    ghost Value = { List T };

    ghost coded = { coded_list T.code };

    ghost view = { λ leaf. map arc_value leaf.items.items };

    ghost invariant = { λ leaf. length leaf.items.items ≤ ROOM };
}

impl<T> Leaf<T> {
    /// How many elements there are.
    pub(crate) fn len(&self) -> usize
        ensures exact { result ≡ length self.now }
        ensures few { length self.now ≤ ROOM }
    {
        self.items.len()
    }

    /// The element at `i`, if it is there.
    pub(crate) fn get(&self, i: u64) -> Option<&T>
        ensures { option_copied result ≡ slice_get self.now i }
    {
        owned(self.items.as_slice(), i)
    }

    /// The elements from `i` on.
    pub(crate) fn after(&self, i: u64) -> &[Arc<T>]
        requires { i < length self.now }
        ensures { IsRun result.now i self.now }
    {
        self.items.as_slice().split_at(i as usize).1
    }
}

impl<T: Drop> Leaf<T> {
    /// A leaf of one element, with room for the most.
    pub(crate) fn single(alloc: Global, value: Arc<T>) -> Result<Leaf<T>, NoMemory>
        ensures { IfOk result (λ leaf. leaf ≡ arc_value value ∷ []) }
    {
        let mut items = Vec::with_capacity(alloc, ROOM)?;
        items.push(value)?;
        Ok(Leaf { items })
    }

    /// A leaf of the same elements.
    fn copied(&self, alloc: Global) -> Result<Leaf<T>, NoMemory>
        ensures { IfOk result (λ leaf. leaf ≡ self.now) }
    {
        let items = shared(alloc, self.items.as_slice())?;
        Ok(Leaf { items })
    }

    fn push_own(&mut self, value: Arc<T>) -> Result<(), NoMemory>
        requires { length self.old < ROOM }
        ensures ok { OnOk result (self.new ≡ self.old ++ arc_value value ∷ []) }
        ensures err { OnErr result (self.new ≡ self.old) }
    {
        self.items.push(value)?;
        Ok(())
    }

    #[tactic(auto, using(crate::proofs::Packed::map_set))]
    fn put_own(&mut self, i: u64, value: Arc<T>)
        requires { i < length self.old }
        ensures { self.new ≡ slice_set self.old i (arc_value value) }
    {
        self.items[i as usize] = value;
    }

    /// Appends, in a copy where the leaf has another owner.
    pub(crate) fn push(
        leaf: &mut Arc<Leaf<T>>,
        alloc: Global,
        value: Arc<T>,
    ) -> Result<(), NoMemory>
        requires { length (arc_value leaf.old) < ROOM }
        ensures ok { OnOk result (arc_value leaf.new ≡ arc_value leaf.old ++ arc_value value ∷ []) }
        ensures err { OnErr result (arc_value leaf.new ≡ arc_value leaf.old) }
    {
        if let Some(own) = Arc::get_mut(leaf) {
            return own.push_own(value);
        }
        let mut copy = leaf.copied(alloc)?;
        copy.push_own(value)?;
        *leaf = Arc::new(alloc, copy)?;
        Ok(())
    }

    /// Puts another element at `i`, in a copy where the leaf has another owner.
    pub(crate) fn put(
        leaf: &mut Arc<Leaf<T>>,
        alloc: Global,
        i: u64,
        value: Arc<T>,
    ) -> Result<(), NoMemory>
        requires { i < length (arc_value leaf.old) }
        ensures ok { OnOk result (arc_value leaf.new ≡ slice_set (arc_value leaf.old) i (arc_value value)) }
        ensures err { OnErr result (arc_value leaf.new ≡ arc_value leaf.old) }
    {
        if let Some(own) = Arc::get_mut(leaf) {
            own.put_own(i, value);
            return Ok(());
        }
        let mut copy = leaf.copied(alloc)?;
        copy.put_own(i, value);
        *leaf = Arc::new(alloc, copy)?;
        Ok(())
    }
}
