// The tree of full leaves: nodes of up to 32 parts, all but the last of the same size. A node is seen as the list of its leaves and its level.
ghost use Rattle.std.specs.Prelude.{◌≡◌, ◌<◌, ◌≤◌, ◌+◌, ◌%◌, ◌^◌, ◌++◌, ◌∷◌, [], IfOk, OnOk, OnErr, map, length, slice_get, slice_set};
ghost use Rattle.std.specs.Option.{option_copied};
ghost use Rattle.std.specs.Arc.{arc_value};
ghost use Rattle.gr_pvec.specs.Inside.Packed.{span, elements, leaf_at, changed_at, leaves_of, AreFull, AreParts};
ghost use Rattle.gr_pvec.specs.Run.{IsRun};

use super::leaf::{BITS, Leaf, ROOM};
use super::shares::{owned, shared};
use gr_base::NoMemory;
use std::alloc::Global;
use std::marker::Model;
use std::sync::Arc;

/// The most levels that a look-up goes down, leaves included, at 2 ^ 63 elements: a root above others has two parts at least, and all but the last have all the leaves that they may have. Each node's invariant keeps to it.
pub const MOST_LEVELS: u32 = 13;

/// A part of the tree. Its parts have `span` leaves each, but for the last, which may have fewer.
#[cycle(node)]
#[derive(Drop)]
pub(crate) struct Node<T> {
    level: u32,
    shape: Shape<T>,
}

#[cycle(node)]
#[derive(Drop)]
enum Shape<T> {
    Leaves(Vec<Arc<Leaf<T>>>),
    Nodes(Vec<Arc<Node<T>>>),
}

impl<T> Model for Node<T> {
    ghost use Rattle.std.specs.Prelude.{List, ℕ};
    ghost use Rattle.std.specs.Coded.{coded_list, coded×, coded_ℕ};

    ghost Value = { List (List T) × ℕ };

    ghost coded = { coded× (coded_list (coded_list T.code)) coded_ℕ };

    ghost use Rattle.gr_pvec.specs.Inside.Parts.{shape_leaves, IsNode};

    ghost view = { λ node. (shape_leaves node.shape, node.level) };

    ghost invariant = { λ node. IsNode node.level node.shape };

    ghost size = { λ value. value.1 };

    ghost use Rattle.gr_pvec.specs.Inside.Falls.{levels_fall};

    ghost size_decreases = { λ node h. levels_fall node h };
}

/// The last `shift` bits.
pub(crate) fn low_bits(k: u64, shift: u32) -> u64
    requires { shift < 64 }
    ensures { result ≡ k % 2 ^ shift }
{
    k & ((1 << shift) - 1)
}

impl<T> Node<T> {
    /// How far it is from the leaves' parents.
    pub(crate) fn level(&self) -> u32
        ensures exact { result ≡ self.now.1 }
        ensures low { result + 2 ≤ MOST_LEVELS }
        ensures few { length self.now.0 ≤ span (self.now.1 + 1) }
    {
        self.level
    }

    /// The leaf at `k`, if it is there.
    pub(crate) fn leaf(&self, k: u64) -> Option<&Leaf<T>>
        ensures { option_copied result ≡ slice_get self.now.0 k }
    {
        match &self.shape {
            Shape::Leaves(leaves) => owned(leaves.as_slice(), k),
            Shape::Nodes(nodes) => {
                let shift = BITS * self.level;
                let child = owned(nodes.as_slice(), k >> shift)?;
                child.leaf(low_bits(k, shift))
            }
        }
    }

    /// The element at `i`, if it is there.
    pub(crate) fn get(&self, i: u64) -> Option<&T>
        requires { AreFull ROOM self.now.0 }
        ensures { option_copied result ≡ slice_get (elements self.now.0) i }
    {
        let leaf = self.leaf(i >> BITS)?;
        leaf.get(low_bits(i, BITS))
    }

    /// The elements from `i` on that stand in its leaf.
    pub(crate) fn after(&self, i: u64) -> &[Arc<T>]
        requires full { AreFull ROOM self.now.0 }
        requires within { i < length (elements self.now.0) }
        ensures { IsRun result.now i (elements self.now.0) }
    {
        match self.leaf(i >> BITS) {
            Some(leaf) => leaf.after(low_bits(i, BITS)),
            None => unreachable!(),
        }
    }
}

impl<T: Drop> Node<T> {
    /// A node of this level over one leaf.
    pub(crate) fn over(alloc: Global, level: u32, leaf: Arc<Leaf<T>>) -> Result<Node<T>, NoMemory>
        requires { level + 2 ≤ MOST_LEVELS }
        ensures { IfOk result (λ made. made ≡ (arc_value leaf ∷ [], level)) }
    {
        if level == 0 {
            let mut leaves = Vec::with_capacity(alloc, ROOM)?;
            leaves.push(leaf)?;
            let shape = Shape::Leaves(leaves);
            return Ok(Node { level, shape });
        }
        let child = Node::over(alloc, level - 1, leaf)?;
        let child = Arc::new(alloc, child)?;
        Node::above(alloc, level, child)
    }

    /// A node of this level over one node.
    fn above(alloc: Global, level: u32, child: Arc<Node<T>>) -> Result<Node<T>, NoMemory>
        requires low { level + 2 ≤ MOST_LEVELS }
        requires below { (arc_value child).1 + 1 ≡ level }
        requires given { 0 < length (arc_value child).0 }
        requires few { length (arc_value child).0 ≤ span level }
        ensures { IfOk result (λ made. made ≡ ((arc_value child).0, level)) }
    {
        let mut nodes = Vec::with_capacity(alloc, ROOM)?;
        nodes.push(child)?;
        let shape = Shape::Nodes(nodes);
        Ok(Node { level, shape })
    }

    /// A node above a full one, with one leaf more.
    pub(crate) fn grown(
        alloc: Global,
        node: Arc<Node<T>>,
        leaf: Arc<Leaf<T>>,
    ) -> Result<Node<T>, NoMemory>
        requires low { (arc_value node).1 + 3 ≤ MOST_LEVELS }
        requires full { length (arc_value node).0 ≡ span ((arc_value node).1 + 1) }
        ensures { IfOk result (λ made. made ≡ ((arc_value node).0 ++ arc_value leaf ∷ [], (arc_value node).1 + 1)) }
    {
        let level = node.level;
        let child = Node::over(alloc, level, leaf)?;
        let child = Arc::new(alloc, child)?;
        let mut nodes = Vec::with_capacity(alloc, ROOM)?;
        nodes.push(node)?;
        nodes.push(child)?;
        let shape = Shape::Nodes(nodes);
        Ok(Node {
            level: level + 1,
            shape,
        })
    }

    /// A node of the same parts.
    fn copied(&self, alloc: Global) -> Result<Node<T>, NoMemory>
        ensures { IfOk result (λ copy. copy ≡ self.now) }
    {
        let shape = match &self.shape {
            Shape::Leaves(leaves) => Shape::Leaves(shared(alloc, leaves.as_slice())?),
            Shape::Nodes(nodes) => Shape::Nodes(shared(alloc, nodes.as_slice())?),
        };
        Ok(Node {
            level: self.level,
            shape,
        })
    }

    /// Appends a leaf to the `n` that there are, in copies of the nodes on the way that have other owners.
    #[cycle(push)]
    fn push_own(&mut self, alloc: Global, n: u64, leaf: Arc<Leaf<T>>) -> Result<(), NoMemory>
        requires counted { n ≡ length self.old.0 }
        requires room { n < span (self.old.1 + 1) }
        ensures ok { OnOk result (self.new ≡ (self.old.0 ++ arc_value leaf ∷ [], self.old.1)) }
        ensures err { OnErr result (self.new ≡ self.old) }
    {
        let level = self.level;
        match &mut self.shape {
            Shape::Leaves(leaves) => {
                leaves.push(leaf)?;
                Ok(())
            }
            Shape::Nodes(nodes) => Node::push_below(nodes, alloc, level, n, leaf),
        }
    }

    /// The same in the parts of a node of this level.
    #[cycle(push)]
    fn push_below(
        nodes: &mut Vec<Arc<Node<T>>>,
        alloc: Global,
        level: u32,
        n: u64,
        leaf: Arc<Leaf<T>>,
    ) -> Result<(), NoMemory>
        requires parts { AreParts level (map arc_value nodes.old.items) }
        requires low { level + 2 ≤ MOST_LEVELS }
        requires counted { n ≡ length (leaves_of (map arc_value nodes.old.items)) }
        requires room { n < span (level + 1) }
        ensures parts { AreParts level (map arc_value nodes.new.items) }
        ensures ok { OnOk result (leaves_of (map arc_value nodes.new.items) ≡ leaves_of (map arc_value nodes.old.items) ++ arc_value leaf ∷ []) }
        ensures err { OnErr result (map arc_value nodes.new.items ≡ map arc_value nodes.old.items) }
    {
        let shift = BITS * level;
        let last = (n >> shift) as usize;
        if last < nodes.len() {
            let node = &mut nodes[last];
            return Node::push(node, alloc, low_bits(n, shift), leaf);
        }
        let child = Node::over(alloc, level - 1, leaf)?;
        let child = Arc::new(alloc, child)?;
        nodes.push(child)?;
        Ok(())
    }

    /// The same, in a copy where the node has another owner.
    #[cycle(push)]
    pub(crate) fn push(
        node: &mut Arc<Node<T>>,
        alloc: Global,
        n: u64,
        leaf: Arc<Leaf<T>>,
    ) -> Result<(), NoMemory>
        requires counted { n ≡ length (arc_value node.old).0 }
        requires room { n < span ((arc_value node.old).1 + 1) }
        ensures ok { OnOk result (arc_value node.new ≡ ((arc_value node.old).0 ++ arc_value leaf ∷ [], (arc_value node.old).1)) }
        ensures err { OnErr result (arc_value node.new ≡ arc_value node.old) }
    {
        if let Some(own) = Arc::get_mut(node) {
            return own.push_own(alloc, n, leaf);
        }
        let mut copy = node.copied(alloc)?;
        copy.push_own(alloc, n, leaf)?;
        *node = Arc::new(alloc, copy)?;
        Ok(())
    }

    /// Puts another element at place `j` of the leaf at `k`, in copies of the nodes on the way that have other owners.
    #[cycle(put)]
    fn put_own(&mut self, alloc: Global, k: u64, j: u64, value: Arc<T>) -> Result<(), NoMemory>
        requires place { k < length self.old.0 }
        requires within { j < length (leaf_at self.old.0 k) }
        ensures ok { OnOk result (self.new ≡ (changed_at self.old.0 k j (arc_value value), self.old.1)) }
        ensures err { OnErr result (self.new ≡ self.old) }
    {
        let level = self.level;
        match &mut self.shape {
            Shape::Leaves(leaves) => Node::put_leaf(leaves, alloc, k, j, value),
            Shape::Nodes(nodes) => Node::put_below(nodes, alloc, level, k, j, value),
        }
    }

    /// The same in one of some leaves.
    fn put_leaf(
        leaves: &mut Vec<Arc<Leaf<T>>>,
        alloc: Global,
        k: u64,
        j: u64,
        value: Arc<T>,
    ) -> Result<(), NoMemory>
        requires place { k < length leaves.old.items }
        requires within { j < length (leaf_at (map arc_value leaves.old.items) k) }
        ensures ok { OnOk result (map arc_value leaves.new.items ≡ changed_at (map arc_value leaves.old.items) k j (arc_value value)) }
        ensures err { OnErr result (map arc_value leaves.new.items ≡ map arc_value leaves.old.items) }
    {
        let leaf = &mut leaves[k as usize];
        Leaf::put(leaf, alloc, j, value)
    }

    /// The same in the parts of a node of this level.
    #[cycle(put)]
    fn put_below(
        nodes: &mut Vec<Arc<Node<T>>>,
        alloc: Global,
        level: u32,
        k: u64,
        j: u64,
        value: Arc<T>,
    ) -> Result<(), NoMemory>
        requires parts { AreParts level (map arc_value nodes.old.items) }
        requires low { level + 2 ≤ MOST_LEVELS }
        requires place { k < length (leaves_of (map arc_value nodes.old.items)) }
        requires within { j < length (leaf_at (leaves_of (map arc_value nodes.old.items)) k) }
        ensures parts { AreParts level (map arc_value nodes.new.items) }
        ensures ok { OnOk result (leaves_of (map arc_value nodes.new.items) ≡ changed_at (leaves_of (map arc_value nodes.old.items)) k j (arc_value value)) }
        ensures err { OnErr result (map arc_value nodes.new.items ≡ map arc_value nodes.old.items) }
    {
        let shift = BITS * level;
        let at = (k >> shift) as usize;
        let node = &mut nodes[at];
        Node::put(node, alloc, low_bits(k, shift), j, value)
    }

    /// The same, in a copy where the node has another owner.
    #[cycle(put)]
    pub(crate) fn put(
        node: &mut Arc<Node<T>>,
        alloc: Global,
        k: u64,
        j: u64,
        value: Arc<T>,
    ) -> Result<(), NoMemory>
        requires place { k < length (arc_value node.old).0 }
        requires within { j < length (leaf_at (arc_value node.old).0 k) }
        ensures ok { OnOk result (arc_value node.new ≡ (changed_at (arc_value node.old).0 k j (arc_value value), (arc_value node.old).1)) }
        ensures err { OnErr result (arc_value node.new ≡ arc_value node.old) }
    {
        if let Some(own) = Arc::get_mut(node) {
            return own.put_own(alloc, k, j, value);
        }
        let mut copy = node.copied(alloc)?;
        copy.put_own(alloc, k, j, value)?;
        *node = Arc::new(alloc, copy)?;
        Ok(())
    }
}
