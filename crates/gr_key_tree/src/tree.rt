// The tree as a finite map.
ghost use Rattle.std.specs.Prelude.{◌≡◌, ◌≤◌, ◌<◌, IfOk};
ghost use Rattle.std.specs.Arc.{arc_value};
ghost use Rattle.std.specs.FinMap.{empty};
ghost use Rattle.gr_key_tree.specs.Inside.Changes.{Answers};
ghost use Rattle.gr_key_tree.specs.Inside.Held.{AreHeld};
ghost use Rattle.gr_key_tree.specs.Inside.Root.{IsRoot, IsShared, root_pairs};
ghost use Rattle.gr_key_tree.specs.Order.{key_cmp};

use super::growing::GrowingKeys;
use super::ids::in_order;
use super::inner;
use super::key::{Kept, KeyRef};
use super::key_order::KeyOrder;
use super::node::Node;
use gr_base::{Bytes, Ids, KeyTable, NoMemory, RecordId};
use std::alloc::Global;
use std::marker::Model;
use std::sync::Arc;

/// The most levels of a tree. A node at the top is parted when it is full, so a level more takes sixteen times as many additions as the one before: the last of these levels is out of reach.
const MOST_LEVELS: u32 = 64;

/// A persistent tree of keys, as deep as the logarithm of their number, whatever the keys. A changed tree shares with the old one what did not change, and the old one stays as it was.
#[derive(Drop)]
pub struct Tree<K: KeyOrder> {
    root: Option<Arc<Node<K>>>,
}

impl<K: KeyOrder> Model for Tree<K> {
    ghost use Rattle.std.specs.Coded.{coded_list, coded_ℕ};
    ghost use Rattle.std.specs.FinMap as map;
    ghost use Rattle.gr_base.specs.Keys.{KeyMap};
    ghost use Rattle.gr_key_tree.specs.Pairs.{map_of, record_code};

    ghost Value = { KeyMap };

    ghost coded = { map.code (coded_list coded_ℕ) record_code };

    ghost use Rattle.gr_key_tree.specs.Inside.Root.{IsRoot, root_pairs};

    ghost view = { λ tree. map_of (root_pairs tree.root) };

    ghost invariant = { λ tree. IsRoot tree.root };
}

impl<K: KeyOrder> Tree<K> {
    /// No keys; takes no memory.
    pub fn new() -> Tree<K>
        ensures { result ≡ empty }
    {
        Tree { root: None }
    }

    /// The levels of the tree, none without keys: as many nodes a search goes through, whatever the keys.
    pub fn levels(&self) -> u32
        ensures { result ≤ 64 }
    {
        match &self.root {
            Some(node) => node.height() + 1,
            None => 0,
        }
    }
}

impl<K: KeyOrder> KeyTable for Tree<K> {
    ghost map = { λ tree. tree };

    fn find(&self, key: &[u8]) -> Option<RecordId> {
        match &self.root {
            Some(node) => node.find(&KeyRef::new(key)),
            None => None,
        }
    }

    fn added(&self, alloc: Global, key: Bytes, id: RecordId) -> Result<Tree<K>, NoMemory> {
        let mut table = self.try_clone()?;
        table.find_or_add(alloc, &key, id)?;
        Ok(table)
    }

    fn removed(&self, alloc: Global, key: &[u8]) -> Result<Tree<K>, NoMemory> {
        match &self.root {
            Some(node) => {
                let less = node.removed(alloc, &KeyRef::new(key))?;
                let root = shared(alloc, less)?;
                Ok(Tree { root })
            }
            None => Ok(Tree { root: None }),
        }
    }

    fn prefix_ids(&self, alloc: Global, prefix: &[u8]) -> Result<Ids, NoMemory> {
        let numbers = numbers_with(&self.root, alloc, prefix)?;
        in_order(alloc, numbers)
    }
}

impl<K: KeyOrder> GrowingKeys for Tree<K> {
    fn try_clone(&self) -> Result<Tree<K>, NoMemory> {
        match &self.root {
            Some(node) => {
                let root = Some(Arc::try_clone(node)?);
                Ok(Tree { root })
            }
            None => Ok(Tree { root: None }),
        }
    }

    fn find_or_add(
        &mut self,
        alloc: Global,
        key: &Bytes,
        id: RecordId,
    ) -> Result<Option<RecordId>, NoMemory> {
        let key = Kept::new(key)?;
        add_root(&mut self.root, alloc, &key, id)
    }
}

/// The id of a key that is there; otherwise puts it in.
fn add_root<K: KeyOrder>(
    root: &mut Option<Arc<Node<K>>>,
    alloc: Global,
    key: &Kept<K>,
    id: RecordId,
) -> Result<Option<RecordId>, NoMemory>
    requires { IsRoot root.old }
    ensures root { IsRoot root.new }
    ensures answers { Answers (key_cmp K.state_of) (root_pairs root.old) key.now id (root_pairs root.new) result }
{
    match root {
        Some(node) => add_top(node, alloc, key, id),
        None => {
            *root = Some(Node::single(alloc, key, id)?);
            Ok(None)
        }
    }
}

/// The same where there are keys. A full node at the top is parted under a new one.
fn add_top<K: KeyOrder>(
    node: &mut Arc<Node<K>>,
    alloc: Global,
    key: &Kept<K>,
    id: RecordId,
) -> Result<Option<RecordId>, NoMemory>
    requires { (arc_value node.old).height < 64 }
    ensures top { (arc_value node.new).height < 64 }
    ensures answers { Answers (key_cmp K.state_of) (arc_value node.old).pairs key.now id (arc_value node.new).pairs result }
{
    if !node.is_full() {
        return inner::add_shared(node, alloc, key, id);
    }
    let height = node.height() + 1;
    if height >= MOST_LEVELS {
        return Err(NoMemory);
    }
    let parted = inner::add_parted(node, alloc, key, id)?;
    *node = Node::over(alloc, height, parted.halves)?;
    Ok(parted.found)
}

/// What is left of a tree, to be shared.
fn shared<K: KeyOrder>(
    alloc: Global,
    node: Option<Node<K>>,
) -> Result<Option<Arc<Node<K>>>, NoMemory>
    ensures { IfOk result (λ root. IsShared node root) }
{
    match node {
        Some(node) => Ok(Some(Arc::new(alloc, node)?)),
        None => Ok(None),
    }
}

/// The numbers of the ids of all keys that begin with the prefix.
fn numbers_with<K: KeyOrder>(
    root: &Option<Arc<Node<K>>>,
    alloc: Global,
    prefix: &[u8],
) -> Result<Vec<u32>, NoMemory>
    ensures { IfOk result (λ numbers. AreHeld (root_pairs root.now) prefix.now numbers.items) }
{
    let mut numbers = Vec::new(alloc);
    match root {
        Some(node) => {
            node.gather(prefix, &mut numbers)?;
            Ok(numbers)
        }
        None => Ok(numbers),
    }
}
