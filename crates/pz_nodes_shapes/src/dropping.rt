ghost use Rattle.std.specs.Prelude.{◌≤◌};
ghost use Rattle.pz_nodes.specs.Arena.{find, live};
ghost use Rattle.pz_nodes_shapes.specs.Dropping.{DropRule, DropAllRule};

use crate::Node;
use pz_nodes::{Key, Nodes, Steps};
use std::sync::ledger::Ledger;

/// Frees the node under the key and all below it, one step a node. Takes no memory.
#[cycle(dropping)]
pub fn drop_part<X: Drop, L: Ledger>(nodes: &mut Nodes<Node<X>>, key: Key, steps: &mut Steps<L>)
    ensures live { live nodes.new ≤ live nodes.old }
    ensures rule { DropRule (find nodes.old) (find nodes.new) key steps.old steps.new }
{
    let Some(node) = nodes.remove(key, steps) else {
        return;
    };
    drop_kids(nodes, node.kids.as_slice(), steps);
}

/// Frees the nodes of all these children.
#[cycle(dropping)]
fn drop_kids<X: Drop, L: Ledger>(
    nodes: &mut Nodes<Node<X>>,
    kids: &[Option<Key>],
    steps: &mut Steps<L>,
)
    ensures live { live nodes.new ≤ live nodes.old }
    ensures rule { DropAllRule (find nodes.old) (find nodes.new) kids.now steps.old steps.new }
{
    for kid in kids {
        if let Some(key) = kid {
            drop_part(nodes, *key, steps);
        }
    }
}
