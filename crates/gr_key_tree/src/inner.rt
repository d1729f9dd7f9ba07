// Children by rising keys: what inner nodes hold.
ghost use Rattle.std.specs.Prelude.{◌≡◌, ◌+◌, ◌≤◌, ◌<◌, IfOk, is_some, length, true};
ghost use Rattle.std.specs.Arc.{arc_value};
ghost use Rattle.std.specs.Option.{unwrap_or};
ghost use Rattle.gr_key_tree.specs.Order.{key_cmp};
ghost use Rattle.gr_key_tree.specs.Inside.Changes.{Answers};
ghost use Rattle.gr_key_tree.specs.Inside.Less.{IsLess};
ghost use Rattle.gr_key_tree.specs.Pairs.{lookup};
ghost use Rattle.gr_key_tree.specs.Inside.Parts.{IsChild, IsInner, IsPart, all_pairs, inner_of};
ghost use Rattle.gr_key_tree.specs.Inside.Halves.{IsLowerCut, IsParted, IsReplaced};
ghost use Rattle.gr_key_tree.specs.Inside.Places.{IsPlace};
ghost use Rattle.gr_key_tree.specs.Inside.Seen.{Stays};

use super::child::Child;
use super::halves::{Halves, Parted};
use super::items::{Item, copied, joined, reached};
use super::key::{Kept, KeyRef};
use super::key_order::KeyOrder;
use super::node::Node;
use gr_base::{NoMemory, RecordId};
use std::alloc::Global;
use std::sync::Arc;

/// The child that alone can have a key.
pub(crate) fn place<K: KeyOrder>(children: &[Child<K>], height: u32, key: &KeyRef<K>) -> usize
    requires { IsInner (key_cmp K.state_of) height children.now }
    ensures { IsPlace (key_cmp K.state_of) key.now children.now result }
{
    reached(&children[1..], key)
}

/// The id of a key that is there; otherwise puts it in.
#[cycle(add)]
pub(crate) fn find_or_add<K: KeyOrder>(
    height: u32,
    children: &mut Vec<Child<K>>,
    alloc: Global,
    key: &Kept<K>,
    id: RecordId,
) -> Result<Option<RecordId>, NoMemory>
    requires inner { IsInner (key_cmp K.state_of) height children.old.items }
    requires room { length children.old.items < 32 }
    ensures inner { IsInner (key_cmp K.state_of) height children.new.items }
    ensures grows { length children.old.items ≤ length children.new.items }
    ensures answers { Answers (key_cmp K.state_of) (all_pairs children.old.items) key.now id (all_pairs children.new.items) result }
{
    let at = place(children.as_slice(), height, &key.lent());
    if children[at].node().is_full() {
        let parted = add_parted(children[at].node(), alloc, key, id)?;
        let found = parted.found;
        replace(children, at, parted.halves)?;
        Ok(found)
    } else {
        add_child(&mut children[at], alloc, key, id)
    }
}

/// The same in a child that is not full.
#[cycle(add)]
fn add_child<K: KeyOrder>(
    child: &mut Child<K>,
    alloc: Global,
    key: &Kept<K>,
    id: RecordId,
) -> Result<Option<RecordId>, NoMemory>
    requires child { IsChild (child.old.node.height + 1) child.old.cut child.old.node }
    requires room { child.old.node.count < 32 }
    ensures child { IsChild (child.old.node.height + 1) child.new.cut child.new.node }
    ensures answers { Answers (key_cmp K.state_of) child.old.node.pairs key.now id child.new.node.pairs result }
{
    let cut = lower_cut(&child.cut, key)?;
    let found = add_shared(&mut child.node, alloc, key, id)?;
    lower(&mut child.cut, cut);
    Ok(found)
}

/// The key, where it is before the cut.
fn lower_cut<K: KeyOrder>(cut: &Kept<K>, key: &Kept<K>) -> Result<Option<Kept<K>>, NoMemory>
    ensures { IfOk result (λ lower. IsLowerCut (key_cmp K.state_of) cut.now key.now lower) }
{
    if cut.is_after(&key.lent()) {
        Ok(Some(key.try_clone()?))
    } else {
        Ok(None)
    }
}

/// Takes a lower cut over, where there is one.
fn lower<K: KeyOrder>(cut: &mut Kept<K>, lower: Option<Kept<K>>)
    ensures { cut.new ≡ unwrap_or lower cut.old }
{
    if let Some(lower) = lower {
        *cut = lower;
    }
}

/// The same in a node that other trees may share: it is written in place where it has no other owner, and copied first where it has.
#[cycle(add)]
pub(crate) fn add_shared<K: KeyOrder>(
    node: &mut Arc<Node<K>>,
    alloc: Global,
    key: &Kept<K>,
    id: RecordId,
) -> Result<Option<RecordId>, NoMemory>
    requires { (arc_value node.old).count < 32 }
    ensures stays { Stays (arc_value node.old) (arc_value node.new) }
    ensures answers { Answers (key_cmp K.state_of) (arc_value node.old).pairs key.now id (arc_value node.new).pairs result }
{
    if let Some(own) = Arc::get_mut(node) {
        return own.find_or_add(alloc, key, id);
    }
    if let Some(found) = node.find(&key.lent()) {
        return Ok(Some(found));
    }
    let mut copy = node.copied(alloc)?;
    let found = copy.find_or_add(alloc, key, id)?;
    *node = Arc::new(alloc, copy)?;
    Ok(found)
}

/// The same in the halves of a full node, which itself stays as it is.
#[cycle(add)]
pub(crate) fn add_parted<K: KeyOrder>(
    node: &Node<K>,
    alloc: Global,
    key: &Kept<K>,
    id: RecordId,
) -> Result<Parted<K>, NoMemory>
    requires { 32 ≤ node.now.count }
    ensures { IfOk result (λ parted. IsParted (key_cmp K.state_of) node.now key.now id parted) }
{
    let mut halves = node.halved(alloc)?;
    let found = if halves.upper.key().is_after(&key.lent()) {
        add_child(&mut halves.lower, alloc, key, id)?
    } else {
        add_child(&mut halves.upper, alloc, key, id)?
    };
    Ok(Parted { found, halves })
}

/// Puts two children in the place of one.
fn replace<K: KeyOrder>(
    children: &mut Vec<Child<K>>,
    at: usize,
    halves: Halves<K>,
) -> Result<(), NoMemory>
    requires { at < length children.old.items }
    ensures { IsReplaced children.old.items at halves children.new.items result }
{
    children.insert(at + 1, halves.upper)?;
    children[at] = halves.lower;
    Ok(())
}

/// Children, copied into a node under another one.
pub(crate) fn part<K: KeyOrder>(
    alloc: Global,
    height: u32,
    children: &[Child<K>],
) -> Result<Child<K>, NoMemory>
    requires { IsInner (key_cmp K.state_of) height children.now }
    ensures { IfOk result (λ child. IsPart (inner_of height children.now) child.cut child.node) }
{
    Node::inner(height, copied(alloc, children)?).part(alloc)
}

/// The children without a key, as a node, or nothing where the key was their only one.
#[cycle(remove)]
pub(crate) fn removed<K: KeyOrder>(
    height: u32,
    children: &[Child<K>],
    alloc: Global,
    key: &KeyRef<K>,
) -> Result<Option<Node<K>>, NoMemory>
    requires inner { IsInner (key_cmp K.state_of) height children.now }
    requires there { is_some (lookup (all_pairs children.now) key.now) ≡ true }
    ensures { IfOk result (λ less. IsLess (key_cmp K.state_of) (inner_of height children.now) key.now less) }
{
    let at = place(children, height, key);
    match children[at].node().removed(alloc, key)? {
        Some(less) => {
            let part = less.part(alloc)?;
            let mut kept = copied(alloc, children)?;
            kept[at] = part;
            Ok(Some(Node::inner(height, kept)))
        }
        None => {
            if children.len() == 1 {
                return Ok(None);
            }
            let kept = joined(alloc, &children[..at], &children[at + 1..])?;
            Ok(Some(Node::inner(height, kept)))
        }
    }
}
