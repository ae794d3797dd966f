// What is read of nodes: how high what stands under a key is, and what is below a shift node.

ghost use Rattle.std.specs.Prelude.{◌≡◌, ◌≤◌, ◌+◌, None, slice_index_or};
ghost use Rattle.pz_nodes.specs.Arena.{find};
ghost use Rattle.pz_tree_nodes.specs.View.{head_view};
ghost use Rattle.pz_tree_regrowing.specs.devices.Levels.{there, all_there, are_gone};
ghost use Rattle.pz_tree_regrowing.specs.devices.Reading.{high_at, highest, past_key, PastRule};

use pz_nodes::{Key, Nodes, Steps};
use pz_nodes_shapes::Kids;
use pz_tree_nodes::{Head, Node};
use std::sync::ledger::Ledger;

/// The key of the child of this number; None where it is gone.
pub(crate) fn kid_in(kids: &Kids, number: usize) -> Option<Key>
    ensures { result ≡ slice_index_or kids.now number None }
{
    kids.as_slice().get(number).copied().flatten()
}

/// How high what stands under the key is; what is gone is done.
pub(crate) fn height_under<L: Ledger>(
    nodes: &Nodes<Node>,
    key: Option<Key>,
    steps: &mut Steps<L>,
) -> u64
    ensures height { result ≡ high_at (find nodes.now) key }
    ensures ticks { steps.new ≡ steps.old + there key }
{
    let Some(key) = key else {
        return 1;
    };
    match nodes.get(key, steps) {
        Some(node) => u64::from(node.what.kept.height),
        None => 1,
    }
}

/// The greatest of these heights, 0 where there is none.
pub(crate) fn greatest_under<L: Ledger>(
    nodes: &Nodes<Node>,
    keys: &[Option<Key>],
    steps: &mut Steps<L>,
) -> u64
    ensures height { result ≡ highest (find nodes.now) keys.now }
    ensures ticks { steps.new ≡ steps.old + all_there keys.now }
{
    let mut greatest = 0;
    for key in keys {
        greatest = height_under(nodes, *key, steps).max(greatest);
    }
    greatest
}

/// Whether all of these are gone.
pub(crate) fn all_gone(keys: &[Option<Key>]) -> bool
    ensures { result ≡ are_gone keys.now }
{
    for key in keys {
        if key.is_some() {
            return false;
        }
    }
    true
}

// What is below a node that stands under this key, if it is a shift node, or the node itself.
fn past(node: &Node, key: Option<Key>) -> Option<Key>
    ensures { result ≡ past_key (head_view node.now.what.head) node.now.kids key }
{
    match &node.what.head {
        Head::Shifted(_) => kid_in(&node.kids, 0),
        _ => key,
    }
}

/// Past the shift node, if there is one: it is no part of the term.
pub(crate) fn past_shift<L: Ledger>(
    nodes: &Nodes<Node>,
    key: Option<Key>,
    steps: &mut Steps<L>,
) -> Option<Key>
    ensures past { PastRule (find nodes.now) key result }
    ensures ticks { steps.new ≤ steps.old + 1 }
{
    let Some(own) = key else {
        return None;
    };
    match nodes.get(own, steps) {
        Some(node) => past(node, key),
        None => None,
    }
}
