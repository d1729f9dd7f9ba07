// Parts of inner nodes. A child is seen as the key of its first entry and what is seen of its node.
ghost use Rattle.std.specs.Prelude.{◌≡◌, IfOk};
ghost use Rattle.gr_key_tree.specs.Inside.Seen.{Part};

use super::items::Item;
use super::key::Kept;
use super::key_order::KeyOrder;
use super::node::Node;
use gr_base::NoMemory;
use std::marker::Model;
use std::sync::Arc;

/// A part of an inner node, and the key of its first entry.
#[cycle(node)]
#[derive(Drop)]
pub(crate) struct Child<K: KeyOrder> {
    pub(crate) cut: Kept<K>,
    pub(crate) node: Arc<Node<K>>,
}

impl<K: KeyOrder> Model for Child<K> {
    ghost use Rattle.gr_key_tree.specs.Inside.Seen.{Part, part_code};

    ghost Value = { Part };

    ghost coded = { part_code };

    ghost use Rattle.std.specs.Prelude.{◌+◌, ◌*◌};
    ghost use Rattle.std.specs.Arc.{arc_value};
    ghost use Rattle.std.proofs.Common.{arith};

    ghost view = { λ child. record { cut = child.cut; node = arc_value child.node } };

    ghost size = { λ part. 2 * part.node.height + 1 };

    ghost size_decreases = { λ child h. Prim.grind (arith) };
}

impl<K: KeyOrder> Child<K> {
    /// The node, lent.
    pub(crate) fn node(&self) -> &Node<K>
        ensures { result.now ≡ self.now.node }
    {
        &self.node
    }
}

impl<K: KeyOrder> Item<K> for Child<K> {
    ghost key_of = { λ part. part.cut };

    fn key(&self) -> &Kept<K> {
        &self.cut
    }

    fn try_clone(&self) -> Result<Child<K>, NoMemory> {
        let cut = self.cut.try_clone()?;
        let node = Arc::try_clone(&self.node)?;
        Ok(Child { cut, node })
    }
}
