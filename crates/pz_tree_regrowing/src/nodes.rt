// What is read of nodes, and what is written under their keys.

ghost use Rattle.std.specs.Prelude.{◌≡◌, ◌≤◌, ◌+◌, None, MatchOption, IfOk, OnOk, slice_index_or};
ghost use Rattle.pz_nodes.specs.Arena.{find};
ghost use Rattle.pz_tree_regrowing.specs.devices.Keeping.{kept_in, kept_in_all};
ghost use Rattle.pz_tree_regrowing.specs.devices.Levels.{IsWritten, IsFree, IsTaken, IsChildOf, there, all_there};

use crate::clocks::clock_below;
use pz_nodes::{Key, Nodes, Steps};
use pz_nodes_shapes::Kids;
use pz_tree_nodes::{Head, Kept, Node, Spot, What, frame_inside, hollow};
use std::alloc::AllocError;
use std::sync::ledger::Ledger;

/// A node that was taken in hand.
#[derive(Drop)]
pub(crate) struct Taken {
    pub(crate) head: Head,
    pub(crate) kids: Kids,
}

/// The key of the child of this number; None where it is gone.
pub(crate) fn kid_in(kids: &Kids, number: usize) -> Option<Key>
    ensures { result ≡ slice_index_or kids.now number None }
{
    kids.as_slice().get(number).copied().flatten()
}

/// Takes the node under the key in hand, and this stands in the place of its child of this number. None
/// where there is no node.
pub(crate) fn take<L: Ledger>(
    nodes: &mut Nodes<Node>,
    key: Key,
    number: usize,
    left: Option<Key>,
    steps: &mut Steps<L>,
) -> Option<Taken>
    ensures taken { MatchOption result (find nodes.old key ≡ None)
        (λ taken. IsTaken (find nodes.old)
        (find nodes.new) key number left taken.head taken.kids) }
    ensures ticks { steps.new ≡ steps.old + 1 }
{
    let node = nodes.set(key, hollow(), steps)?;
    let Node { what, mut kids } = node;
    if number < kids.as_slice().len() {
        kids.put(number, left);
    }
    Some(Taken {
        head: what.into_head(),
        kids,
    })
}

/// Writes another node under a key that has one.
pub(crate) fn write<L: Ledger>(
    nodes: &mut Nodes<Node>,
    key: Key,
    head: Head,
    kids: Kids,
    kept: Kept,
    steps: &mut Steps<L>,
)
    ensures written { (find nodes.old key ≡ None → ⊥) →
        IsWritten (find nodes.old) (find nodes.new) key
        head kids kept }
    ensures ticks { steps.new ≡ steps.old + 1 }
{
    let node = Node {
        what: What { head, kept },
        kids,
    };
    let _ = nodes.set(key, node, steps);
}

/// Frees the key.
pub(crate) fn release<L: Ledger>(nodes: &mut Nodes<Node>, key: Key, steps: &mut Steps<L>)
    ensures free { IsFree (find nodes.old) (find nodes.new) key }
    ensures ticks { steps.new ≡ steps.old + 1 }
{
    let _ = nodes.remove(key, steps);
}

/// What is kept under the key; what is gone is done.
pub(crate) fn kept_of<L: Ledger>(
    nodes: &Nodes<Node>,
    key: Option<Key>,
    steps: &mut Steps<L>,
) -> Kept
    ensures kept { result ≡ kept_in (find nodes.now) key }
    ensures ticks { steps.new ≡ steps.old + there key }
{
    let Some(key) = key else {
        return Kept::done();
    };
    match nodes.get(key, steps) {
        Some(node) => node.what.kept,
        None => Kept::done(),
    }
}

/// What is kept under these keys, from the left. The only error is that there is more to do than can be
/// counted.
pub(crate) fn kept_of_all<L: Ledger>(
    nodes: &Nodes<Node>,
    keys: &[Option<Key>],
    steps: &mut Steps<L>,
) -> Result<Kept, AllocError>
    ensures kept { IfOk result (λ kept. kept ≡ kept_in_all (find nodes.now) keys.now) }
    ensures ticks { OnOk result (steps.new ≡ steps.old + all_there keys.now) }
{
    let mut all = Kept::none();
    for key in keys {
        let kept = kept_of(nodes, *key, steps);
        all = all.join(&kept)?;
    }
    Ok(all)
}

/// Where the child of this number stands, of the part there. Its clock shows no more than that around it.
pub(crate) fn child_of<L: Ledger>(
    nodes: &Nodes<Node>,
    spot: Spot,
    number: usize,
    steps: &mut Steps<L>,
) -> Spot
    ensures child { IsChildOf (find nodes.now) spot.key spot.frame.0 spot.clock number result.key
        result.frame.0 result.clock }
    ensures clock { result.clock ≤ spot.clock }
    ensures ticks { steps.new ≤ steps.old + 1 }
{
    let Some(key) = spot.key else {
        return spot;
    };
    let Some(node) = nodes.get(key, steps) else {
        return spot;
    };
    Spot {
        key: kid_in(&node.kids, number),
        frame: frame_inside(&node.what.head, spot.frame),
        clock: clock_below(&node.what.head, number, spot.clock),
    }
}
