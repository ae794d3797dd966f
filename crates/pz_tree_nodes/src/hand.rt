// A node that is taken in hand, while those below it change, and put back.

ghost use Rattle.std.specs.Prelude.{◌≡◌, ◌+◌, Some, None};
ghost use Rattle.pz_nodes.specs.Arena.{find, Updates};

use crate::{Head, Kept, Node, What};
use pz_nodes::{Key, Nodes, Steps};
use pz_nodes_shapes::Kids;
use std::sync::ledger::Ledger;

/// What lies under the key of a node that is in hand.
pub fn hollow() -> Node {
    Node {
        what: What {
            head: Head::Par,
            kept: Kept::none(),
        },
        kids: Kids::none(),
    }
}

/// Puts a node under the key of one that is in hand.
pub fn put_back<L: Ledger>(nodes: &mut Nodes<Node>, key: Key, node: Node, steps: &mut Steps<L>)
    ensures put { (find nodes.old key ≡ None → ⊥) → Updates nodes.old nodes.new key (Some node) }
    ensures ticks { steps.new ≡ steps.old + 1 }
{
    let _ = nodes.set(key, node, steps);
}
