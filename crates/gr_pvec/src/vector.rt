// The vector: a tree of full leaves, and the leaf that is being filled.
ghost use Rattle.std.specs.Prelude.{◌≡◌, ◌<◌, ◌^◌, ◌++◌, ◌∷◌, [], ◌==◌, IfOk, OnOk, OnErr, map, ◌+◌, length, slice_get, slice_set, slice_range, ◌≤◌};
ghost use Rattle.std.specs.Option.{option_copied};
ghost use Rattle.std.specs.Arc.{arc_value};
ghost use Rattle.gr_pvec.specs.Inside.Packed.{AreFull, changed_at};
ghost use Rattle.gr_pvec.specs.Inside.Parts.{full_leaves, full_items, tail_items};
ghost use Rattle.gr_pvec.specs.Run.{IsRun, IsRunUpTo};

use super::items::Items;
use super::leaf::{BITS, Leaf, ROOM};
use super::node::{Node, low_bits};
use gr_base::NoMemory;
use std::alloc::Global;
use std::marker::Model;
use std::sync::Arc;

/// A list of shared elements. A changed copy shares all but the path to the change; the old one stays as it was.
#[derive(Drop)]
pub struct PVec<T> {
    before: u64,
    len: u64,
    full: Option<Arc<Node<T>>>,
    tail: Option<Arc<Leaf<T>>>,
}

impl<T> Model for PVec<T> {
    ghost use Rattle.std.specs.Prelude.{List, ◌++◌};
    ghost use Rattle.std.specs.Coded.{coded_list};

    ghost Value = { List T };

    ghost coded = { coded_list T.code };

    ghost use Rattle.gr_pvec.specs.Inside.Parts.{full_items, tail_items, IsVector};

    ghost view = { λ vector. full_items vector.full ++ tail_items vector.tail };

    ghost invariant = { λ vector. IsVector vector.before vector.len vector.full vector.tail };
}

impl<T> PVec<T> {
    /// No elements; takes no memory.
    pub fn new() -> PVec<T>
        ensures { result ≡ [] }
    {
        PVec {
            before: 0,
            len: 0,
            full: None,
            tail: None,
        }
    }

    /// How many elements there are.
    pub fn len(&self) -> u64
        ensures { result ≡ length self.now }
    {
        self.len
    }

    /// Whether there are no elements.
    pub fn is_empty(&self) -> bool
        ensures { result ≡ (length self.now == 0) }
    {
        self.len == 0
    }

    /// The element at `i`, if it is there. At most 13 levels are gone down.
    pub fn get(&self, i: u64) -> Option<&T>
        ensures { option_copied result ≡ slice_get self.now i }
    {
        if i < self.before {
            return full_get(&self.full, i);
        }
        tail_get(&self.tail, i - self.before)
    }

    /// The elements of `from..to` in order, lent. Each leaf is looked up once.
    pub fn iter(&self, from: u64, to: u64) -> Items<'_, T>
        requires ordered { from ≤ to }
        requires within { to ≤ length self.now }
        ensures { result ≡ slice_range self.now from to }
    {
        Items::over(self, from, to)
    }

    /// The elements from `from` on that stand in its leaf, as far as `to`.
    pub(crate) fn run(&self, from: u64, to: u64) -> &[Arc<T>]
        requires ordered { from < to }
        requires within { to ≤ length self.now }
        ensures { IsRunUpTo result.now from to self.now }
    {
        let run = self.leaf_from(from);
        let most = to - from;
        if (run.len() as u64) <= most {
            return run;
        }
        run.split_at(most as usize).0
    }

    /// The elements from `i` on that stand in its leaf.
    fn leaf_from(&self, i: u64) -> &[Arc<T>]
        requires { i < length self.now }
        ensures { IsRun result.now i self.now }
    {
        if i < self.before {
            return full_from(&self.full, i);
        }
        tail_from(&self.tail, i - self.before)
    }
}

impl<T: Drop> PVec<T> {
    /// The same list once more, which shares everything. It fails only where a count of owners is full.
    pub fn try_clone(&self) -> Result<PVec<T>, NoMemory>
        ensures { IfOk result (λ copy. copy ≡ self.now) }
    {
        let full = match &self.full {
            Some(node) => Some(Arc::try_clone(node)?),
            None => None,
        };
        let tail = match &self.tail {
            Some(leaf) => Some(Arc::try_clone(leaf)?),
            None => None,
        };
        Ok(PVec {
            before: self.before,
            len: self.len,
            full,
            tail,
        })
    }

    /// The elements and one more.
    pub fn pushed(&self, alloc: Global, value: Arc<T>) -> Result<PVec<T>, NoMemory>
        requires { length self.now < 2 ^ 63 }
        ensures { IfOk result (λ made. made ≡ self.now ++ arc_value value ∷ []) }
    {
        let mut made = self.try_clone()?;
        made.push(alloc, value)?;
        Ok(made)
    }

    /// The elements with another one at `i`.
    pub fn with(&self, alloc: Global, i: u64, value: Arc<T>) -> Result<PVec<T>, NoMemory>
        requires { i < length self.now }
        ensures { IfOk result (λ made. made ≡ slice_set self.now i (arc_value value)) }
    {
        let mut made = self.try_clone()?;
        made.set(alloc, i, value)?;
        Ok(made)
    }

    /// Appends in place. Where nobody else shares the last leaf, nothing is copied.
    pub fn push(&mut self, alloc: Global, value: Arc<T>) -> Result<(), NoMemory>
        requires { length self.old < 2 ^ 63 }
        ensures ok { OnOk result (self.new ≡ self.old ++ arc_value value ∷ []) }
        ensures err { OnErr result (self.new ≡ self.old) }
    {
        let filled = self.len - self.before;
        if filled < ROOM as u64 {
            push_tail(&mut self.tail, alloc, value)?;
            self.len += 1;
            return Ok(());
        }
        let next = Arc::new(alloc, Leaf::single(alloc, value)?)?;
        push_full(&mut self.full, alloc, self.before >> BITS, &self.tail)?;
        self.tail = Some(next);
        self.before = self.len;
        self.len += 1;
        Ok(())
    }

    /// Puts another element at `i` in place. Only what has other owners on the way to it is copied.
    #[tactic(auto, using(crate::proofs::Packed::set_left, crate::proofs::Packed::set_right, crate::proofs::Packed::length_set))]
    pub fn set(&mut self, alloc: Global, i: u64, value: Arc<T>) -> Result<(), NoMemory>
        requires { i < length self.old }
        ensures ok { OnOk result (self.new ≡ slice_set self.old i (arc_value value)) }
        ensures err { OnErr result (self.new ≡ self.old) }
    {
        let before = self.before;
        if i < before {
            put_full(&mut self.full, alloc, i, value)?;
            return Ok(());
        }
        put_tail(&mut self.tail, alloc, i - before, value)?;
        Ok(())
    }
}

/// The element of the tree at `i`.
fn full_get<T>(full: &Option<Arc<Node<T>>>, i: u64) -> Option<&T>
    requires { AreFull ROOM (full_leaves full.now) }
    ensures { option_copied result ≡ slice_get (full_items full.now) i }
{
    match full {
        Some(node) => node.get(i),
        None => None,
    }
}

/// The element of the last leaf at `i`.
fn tail_get<T>(tail: &Option<Arc<Leaf<T>>>, i: u64) -> Option<&T>
    ensures { option_copied result ≡ slice_get (tail_items tail.now) i }
{
    match tail {
        Some(leaf) => leaf.get(i),
        None => None,
    }
}

/// The elements of the tree from `i` on that stand in its leaf.
fn full_from<T>(full: &Option<Arc<Node<T>>>, i: u64) -> &[Arc<T>]
    requires full { AreFull ROOM (full_leaves full.now) }
    requires within { i < length (full_items full.now) }
    ensures { IsRun result.now i (full_items full.now) }
{
    match full {
        Some(node) => node.after(i),
        None => unreachable!(),
    }
}

/// The elements of the last leaf from `i` on.
fn tail_from<T>(tail: &Option<Arc<Leaf<T>>>, i: u64) -> &[Arc<T>]
    requires { i < length (tail_items tail.now) }
    ensures { IsRun result.now i (tail_items tail.now) }
{
    match tail {
        Some(leaf) => leaf.after(i),
        None => unreachable!(),
    }
}

/// Appends to the last leaf.
fn push_tail<T: Drop>(
    tail: &mut Option<Arc<Leaf<T>>>,
    alloc: Global,
    value: Arc<T>,
) -> Result<(), NoMemory>
    requires { length (tail_items tail.old) < ROOM }
    ensures ok { OnOk result (tail_items tail.new ≡ tail_items tail.old ++ arc_value value ∷ []) }
    ensures err { OnErr result (tail_items tail.new ≡ tail_items tail.old) }
{
    match tail {
        Some(leaf) => Leaf::push(leaf, alloc, value),
        None => {
            *tail = Some(Arc::new(alloc, Leaf::single(alloc, value)?)?);
            Ok(())
        }
    }
}

/// Puts another element at `i` of the last leaf.
fn put_tail<T: Drop>(
    tail: &mut Option<Arc<Leaf<T>>>,
    alloc: Global,
    i: u64,
    value: Arc<T>,
) -> Result<(), NoMemory>
    requires { i < length (tail_items tail.old) }
    ensures ok { OnOk result (tail_items tail.new ≡ slice_set (tail_items tail.old) i (arc_value value)) }
    ensures err { OnErr result (tail_items tail.new ≡ tail_items tail.old) }
{
    match tail {
        Some(leaf) => Leaf::put(leaf, alloc, i, value),
        None => unreachable!(),
    }
}

/// Puts another element at `i` of the tree.
fn put_full<T: Drop>(
    full: &mut Option<Arc<Node<T>>>,
    alloc: Global,
    i: u64,
    value: Arc<T>,
) -> Result<(), NoMemory>
    requires full { AreFull ROOM (full_leaves full.old) }
    requires within { i < length (full_items full.old) }
    ensures full { AreFull ROOM (full_leaves full.new) }
    ensures ok { OnOk result (full_items full.new ≡ slice_set (full_items full.old) i (arc_value value)) }
    ensures err { OnErr result (full_items full.new ≡ full_items full.old) }
{
    match full {
        Some(node) => Node::put(node, alloc, i >> BITS, low_bits(i, BITS), value),
        None => unreachable!(),
    }
}

/// Appends a full leaf, which the caller keeps too, to the `n` leaves of the tree.
fn push_full<T: Drop>(
    full: &mut Option<Arc<Node<T>>>,
    alloc: Global,
    n: u64,
    tail: &Option<Arc<Leaf<T>>>,
) -> Result<(), NoMemory>
    requires counted { n ≡ length (full_leaves full.old) }
    requires given { 0 < length (tail_items tail.now) }
    requires short { n < 2 ^ 58 }
    ensures ok { OnOk result (full_leaves full.new ≡ full_leaves full.old ++ tail_items tail.now ∷ []) }
    ensures err { OnErr result (full_leaves full.new ≡ full_leaves full.old) }
{
    let leaf = match tail {
        Some(leaf) => Arc::try_clone(leaf)?,
        None => unreachable!(),
    };
    match full {
        Some(node) => push_leaf(node, alloc, n, leaf),
        None => {
            *full = Some(Arc::new(alloc, Node::over(alloc, 0, leaf)?)?);
            Ok(())
        }
    }
}

/// Appends a leaf to the `n` leaves of the tree. A full root goes under a new one whole.
fn push_leaf<T: Drop>(
    node: &mut Arc<Node<T>>,
    alloc: Global,
    n: u64,
    leaf: Arc<Leaf<T>>,
) -> Result<(), NoMemory>
    requires counted { n ≡ length (arc_value node.old).0 }
    requires short { n < 2 ^ 58 }
    ensures ok { OnOk result ((arc_value node.new).0 ≡ (arc_value node.old).0 ++ arc_value leaf ∷ []) }
    ensures err { OnErr result ((arc_value node.new).0 ≡ (arc_value node.old).0) }
{
    let shift = BITS * (node.level() + 1);
    if n >> shift == 0 {
        return Node::push(node, alloc, n, leaf);
    }
    let below = Arc::try_clone(node)?;
    *node = Arc::new(alloc, Node::grown(alloc, below, leaf)?)?;
    Ok(())
}
