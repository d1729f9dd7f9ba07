// The tree: leaves of entries, and inner nodes of children. A node is seen as the list of its pairs, its height, and the number of its own parts.
ghost use Rattle.std.specs.Prelude.{◌≡◌, ◌∷◌, [], ◌≤◌, ◌<◌, ◌++◌, IfOk, IsTrue, OnOk, false, is_some, length, true};
ghost use Rattle.std.specs.Arc.{arc_value};
ghost use Rattle.gr_key_tree.specs.Order.{key_cmp};
ghost use Rattle.gr_key_tree.specs.Pairs.{lookup};
ghost use Rattle.gr_key_tree.specs.Inside.Changes.{Answers};
ghost use Rattle.gr_key_tree.specs.Inside.Halves.{AreHalves, IsHalved, IsOver, both_pairs};
ghost use Rattle.gr_key_tree.specs.Inside.Held.{IsSkipped, numbers_with};
ghost use Rattle.gr_key_tree.specs.Inside.Less.{IsLess};
ghost use Rattle.gr_key_tree.specs.Inside.Parts.{IsFirst, IsInner, IsLeaf, IsPart, inner_of, leaf_of};
ghost use Rattle.gr_key_tree.specs.Inside.Rising.{Rising};
ghost use Rattle.gr_key_tree.specs.Inside.Seen.{Stays};

use super::child::Child;
use super::entry::Entry;
use super::halves::Halves;
use super::items::{Item, copied};
use super::key::{Kept, KeyRef};
use super::key_order::KeyOrder;
use super::{inner, leaf};
use gr_base::{NoMemory, RecordId};
use std::alloc::Global;
use std::marker::Model;
use std::sync::Arc;

/// The most entries of a leaf, and children of an inner node.
pub(crate) const MOST: usize = 32;

/// A part of the tree.
#[cycle(node)]
#[derive(Drop)]
pub(crate) struct Node<K: KeyOrder> {
    shape: Shape<K>,
}

/// What a node holds.
#[cycle(node)]
#[derive(Drop)]
pub(crate) enum Shape<K: KeyOrder> {
    /// Entries, by rising keys.
    Leaf(Vec<Entry<K>>),
    /// The height, and children by rising keys.
    Inner(u32, Vec<Child<K>>),
}

impl<K: KeyOrder> Model for Node<K> {
    ghost use Rattle.gr_key_tree.specs.Inside.Seen.{Seen, seen_code};

    ghost Value = { Seen };

    ghost coded = { seen_code };

    ghost use Rattle.gr_key_tree.specs.Order.{key_cmp};
    ghost use Rattle.gr_key_tree.specs.Inside.Less.{IsLess};
    ghost use Rattle.gr_key_tree.specs.Inside.Parts.{IsNode, seen};

    ghost view = { λ node. seen node.shape };

    ghost invariant = { λ node. IsNode (key_cmp K.state_of) node.shape };

    ghost use Rattle.std.specs.Prelude.{◌*◌};

    ghost size = { λ node. 2 * node.height };

    ghost use Rattle.gr_key_tree.specs.Inside.Falls.{depth_le-height};

    ghost size_decreases = { λ node h. depth_le-height _ K.KeyOrder _ node.shape h };
}

impl<K: KeyOrder> Node<K> {
    /// A leaf of these entries.
    pub(crate) fn leaf(items: Vec<Entry<K>>) -> Node<K>
        requires { IsLeaf (key_cmp K.state_of) items.items }
        ensures { result ≡ leaf_of items.items }
    {
        Node {
            shape: Shape::Leaf(items),
        }
    }

    /// An inner node of these children.
    pub(crate) fn inner(height: u32, children: Vec<Child<K>>) -> Node<K>
        requires { IsInner (key_cmp K.state_of) height children.items }
        ensures { result ≡ inner_of height children.items }
    {
        Node {
            shape: Shape::Inner(height, children),
        }
    }

    /// A leaf of one entry.
    pub(crate) fn single(
        alloc: Global,
        key: &Kept<K>,
        id: RecordId,
    ) -> Result<Arc<Node<K>>, NoMemory>
        ensures { IfOk result (λ node. arc_value node ≡ leaf_of ((key.now, id) ∷ [])) }
    {
        let mut items = Vec::with_capacity(alloc, 1)?;
        items.push(Entry::new(key.try_clone()?, id))?;
        Ok(Arc::new(alloc, Node::leaf(items))?)
    }

    /// A node over two others.
    pub(crate) fn over(
        alloc: Global,
        height: u32,
        halves: Halves<K>,
    ) -> Result<Arc<Node<K>>, NoMemory>
        requires halves { AreHalves height halves }
        requires rising { Rising (key_cmp K.state_of) (λ pair. pair.0) (both_pairs halves) }
        ensures { IfOk result (λ node. IsOver height (both_pairs halves) (arc_value node)) }
    {
        let mut children = Vec::with_capacity(alloc, 2)?;
        children.push(halves.lower)?;
        children.push(halves.upper)?;
        Ok(Arc::new(alloc, Node::inner(height, children))?)
    }

    /// How many entries or children the node has.
    pub(crate) fn count(&self) -> usize
        ensures { result ≡ self.now.count }
    {
        match &self.shape {
            Shape::Leaf(items) => items.len(),
            Shape::Inner(_, children) => children.len(),
        }
    }

    /// The levels below this one.
    pub(crate) fn height(&self) -> u32
        ensures { result ≡ self.now.height }
    {
        match &self.shape {
            Shape::Leaf(_) => 0,
            Shape::Inner(height, _) => *height,
        }
    }

    /// Whether there is no room for one more entry or child.
    pub(crate) fn is_full(&self) -> bool
        ensures full { IsTrue result → 32 ≤ self.now.count }
        ensures room { (result ≡ false) → self.now.count < 32 }
    {
        self.count() >= MOST
    }

    /// The id of a key, where the key is there.
    pub(crate) fn find(&self, key: &KeyRef<K>) -> Option<RecordId>
        ensures exact { result ≡ lookup self.now.pairs key.now }
        ensures rising { Rising (key_cmp K.state_of) (λ pair. pair.0) self.now.pairs }
    {
        match &self.shape {
            Shape::Leaf(items) => leaf::find(items.as_slice(), key),
            Shape::Inner(height, children) => {
                let at = inner::place(children.as_slice(), *height, key);
                children[at].node().find(key)
            }
        }
    }

    /// The id of a key that is there; otherwise puts it in.
    #[cycle(add)]
    pub(crate) fn find_or_add(
        &mut self,
        alloc: Global,
        key: &Kept<K>,
        id: RecordId,
    ) -> Result<Option<RecordId>, NoMemory>
        requires { self.old.count < 32 }
        ensures stays { Stays self.old self.new }
        ensures answers { Answers (key_cmp K.state_of) self.old.pairs key.now id self.new.pairs result }
    {
        match &mut self.shape {
            Shape::Leaf(items) => leaf::find_or_add(items, key, id),
            Shape::Inner(height, children) => {
                inner::find_or_add(*height, children, alloc, key, id)
            }
        }
    }

    /// The same node once more, whose children are shared.
    pub(crate) fn copied(&self, alloc: Global) -> Result<Node<K>, NoMemory>
        ensures { IfOk result (λ copy. copy ≡ self.now) }
    {
        match &self.shape {
            Shape::Leaf(items) => Ok(Node::leaf(copied(alloc, items.as_slice())?)),
            Shape::Inner(height, children) => {
                Ok(Node::inner(*height, copied(alloc, children.as_slice())?))
            }
        }
    }

    /// The key of the first entry.
    pub(crate) fn first(&self) -> Result<Kept<K>, NoMemory>
        requires { 0 < self.now.count }
        ensures { IfOk result (λ cut. IsFirst cut self.now.pairs) }
    {
        match &self.shape {
            Shape::Leaf(items) => items[0].key().try_clone(),
            Shape::Inner(_, children) => children[0].key().try_clone(),
        }
    }

    /// A node as a child.
    pub(crate) fn part(self, alloc: Global) -> Result<Child<K>, NoMemory>
        requires { 0 < self.count }
        ensures { IfOk result (λ child. IsPart self child.cut child.node) }
    {
        let cut = self.first()?;
        let node = Arc::new(alloc, self)?;
        Ok(Child { cut, node })
    }

    /// Both halves of a full node.
    pub(crate) fn halved(&self, alloc: Global) -> Result<Halves<K>, NoMemory>
        requires { 32 ≤ self.now.count }
        ensures { IfOk result (λ halves. IsHalved (key_cmp K.state_of) self.now halves) }
    {
        match &self.shape {
            Shape::Leaf(items) => {
                let (low, high) = items.as_slice().split_at(MOST / 2);
                let lower = leaf::part(alloc, low)?;
                let upper = leaf::part(alloc, high)?;
                Ok(Halves { lower, upper })
            }
            Shape::Inner(height, children) => {
                let (low, high) = children.as_slice().split_at(MOST / 2);
                let lower = inner::part(alloc, *height, low)?;
                let upper = inner::part(alloc, *height, high)?;
                Ok(Halves { lower, upper })
            }
        }
    }

    /// The node without a key, or nothing where the key was its only one.
    #[cycle(remove)]
    pub(crate) fn removed(
        &self,
        alloc: Global,
        key: &KeyRef<K>,
    ) -> Result<Option<Node<K>>, NoMemory>
        requires { is_some (lookup self.now.pairs key.now) ≡ true }
        ensures { IfOk result (λ less. IsLess (key_cmp K.state_of) self.now key.now less) }
    {
        match &self.shape {
            Shape::Leaf(items) => {
                let less = leaf::removed(items.as_slice(), alloc, key)?;
                if less.is_empty() {
                    return Ok(None);
                }
                Ok(Some(Node::leaf(less)))
            }
            Shape::Inner(height, children) => {
                inner::removed(*height, children.as_slice(), alloc, key)
            }
        }
    }

    /// Puts the ids of the keys that begin with the prefix at the end.
    #[cycle(gather)]
    pub(crate) fn gather(&self, prefix: &[u8], numbers: &mut Vec<u32>) -> Result<(), NoMemory>
        ensures held { OnOk result (numbers.new.items ≡ numbers.old.items ++ numbers_with prefix.now self.now.pairs) }
        ensures rising { Rising (key_cmp K.state_of) (λ pair. pair.0) self.now.pairs }
    {
        match &self.shape {
            Shape::Leaf(items) => leaf::gather(items.as_slice(), prefix, numbers),
            Shape::Inner(height, children) => {
                for at in 0..children.len() {
                    if !is_skipped(children.as_slice(), *height, at, prefix) {
                        children[at].node().gather(prefix, numbers)?;
                    }
                }
                Ok(())
            }
        }
    }
}

/// Whether it is known that no key of the child begins with the prefix.
fn is_skipped<K: KeyOrder>(children: &[Child<K>], height: u32, at: usize, prefix: &[u8]) -> bool
    requires inner { IsInner (key_cmp K.state_of) height children.now }
    requires within { at < length children.now }
    ensures { IsTrue result → IsSkipped prefix.now children.now at }
{
    if K::none_from(prefix, children[at].key().bytes()) {
        return true;
    }
    if at + 1 < children.len() {
        K::none_before(prefix, children[at + 1].key().bytes())
    } else {
        false
    }
}
