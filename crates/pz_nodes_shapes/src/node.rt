ghost use Rattle.std.specs.Prelude.{◌≡◌, ◌+◌};
ghost use Rattle.pz_nodes.specs.Arena.{find};
ghost use Rattle.pz_nodes_shapes.specs.Rose.{kid_of};

use crate::Kids;
use pz_nodes::{Key, Nodes, Steps};
use std::sync::ledger::Ledger;

/// A node as it lies in the map: what it is, and the keys of its children.
#[derive(Drop)]
pub struct Node<X> {
    pub what: X,
    pub kids: Kids,
}

/// The key of the child of this number; None where the node has no such child, or the child is gone, or
/// there is no node. Takes no memory.
pub fn kid_at<X, L: Ledger>(
    nodes: &Nodes<Node<X>>,
    key: Key,
    number: usize,
    steps: &mut Steps<L>,
) -> Option<Key>
    ensures kid { result ≡ kid_of (find nodes.now key) number }
    ensures ticks { steps.new ≡ steps.old + 1 }
{
    let node = nodes.get(key, steps)?;
    let kids = node.kids.as_slice();
    kids.get(number).copied().flatten()
}
