// From the topmost node of a term to that of one of its parts.

ghost use Rattle.std.specs.Prelude.{◌≡◌, ◌≤◌, ◌+◌, ◌*◌, length, slice_index_or, None};
ghost use Rattle.pz_nodes.specs.Arena.{find};
ghost use Rattle.pz_nodes_shapes.specs.Seen.{seen};
ghost use Rattle.pz_tree_standing.specs.Heads.{inner_clock, inner_frame};
ghost use Rattle.pz_tree_nodes.specs.View.{head_view, what_view};
ghost use Rattle.pz_tree_nodes.specs.Seeking.{SeekRule};
ghost use Rattle.pz_tree_nodes.specs.devices.Levels.{PastRule, PastRightRule, ChildRule};

use crate::inside::{clock_inside, frame_inside, local_clock};
use crate::{Head, Node};
use pz_nodes::{Key, Nodes, Steps};
use pz_rules::pz_state::FrameId;
use std::sync::ledger::Ledger;

/// Where a part stands in the nodes.
#[derive(Clone, Copy)]
pub struct Spot {
    /// The key of its topmost node; None where the part is done.
    pub key: Option<Key>,
    /// The frame in which it stands.
    pub frame: FrameId,
    /// What its clock shows, in clock units.
    pub clock: u128,
}

// The key of a child of a node; None where it is gone.
fn kid_in(node: &Node, number: usize) -> Option<Key>
    ensures { result ≡ slice_index_or node.now.kids number None }
{
    node.kids.as_slice().get(number).copied().flatten()
}

// Past the shift node, if there is one: it is no part of the term, and what is below it is none.
pub(crate) fn past_shift<L: Ledger>(nodes: &Nodes<Node>, spot: Spot, steps: &mut Steps<L>) -> Spot
    ensures past { PastRule (seen what_view (find nodes.now)) spot.key spot.clock result.key
        result.clock }
    ensures right { PastRightRule (find nodes.now) spot.key spot.frame.0 spot.clock result.key
        result.clock }
    ensures frame { result.frame ≡ spot.frame }
    ensures ticks { steps.new ≤ steps.old + 1 }
{
    let Some(key) = spot.key else {
        return spot;
    };
    let Some(node) = nodes.get(key, steps) else {
        return spot;
    };
    match &node.what.head {
        Head::Shifted(shift) => Spot {
            key: kid_in(node, 0),
            frame: spot.frame,
            clock: local_clock(shift, spot.clock),
        },
        _ => spot,
    }
}

// The child of this number, of a node that stands at a spot.
pub(crate) fn child_in(node: &Node, spot: Spot, number: usize) -> Spot
    ensures key { result.key ≡ slice_index_or node.now.kids number None }
    ensures frame { result.frame.0 ≡ inner_frame (head_view node.now.what.head) spot.frame.0 }
    ensures clock { result.clock ≡ inner_clock (head_view node.now.what.head) number spot.clock }
{
    Spot {
        key: kid_in(node, number),
        frame: frame_inside(&node.what.head, spot.frame),
        clock: clock_inside(&node.what.head, number, spot.clock),
    }
}

// The child of this number, of a part whose topmost node is no shift node.
fn child_at<L: Ledger>(nodes: &Nodes<Node>, spot: Spot, number: usize, steps: &mut Steps<L>) -> Spot
    ensures child { ChildRule (seen what_view (find nodes.now)) spot.key spot.frame.0 spot.clock
        number result.key result.frame.0 result.clock }
    ensures ticks { steps.new ≤ steps.old + 1 }
{
    let Some(key) = spot.key else {
        return spot;
    };
    let Some(node) = nodes.get(key, steps) else {
        return spot;
    };
    child_in(node, spot, number)
}

/// The part at a place of the term that stands at `root`: the key of its topmost node, None where the part
/// is done or there is none, the frame in which it stands, and what its clock shows. A shift node takes no
/// number of the place, and is never handed out. Takes no memory, and two steps at most for each number of
/// the place, and one.
pub fn part_at<L: Ledger>(
    nodes: &Nodes<Node>,
    root: Spot,
    place: &[usize],
    steps: &mut Steps<L>,
) -> Spot
    ensures found { SeekRule (seen what_view (find nodes.now)) root.key root.frame.0 root.clock
        place.now result.key result.frame.0 result.clock }
    ensures ticks { steps.new ≤ steps.old + (2 * length place.now + 1) }
{
    let mut spot = past_shift(nodes, root, steps);
    for number in place {
        let child = child_at(nodes, spot, *number, steps);
        spot = past_shift(nodes, child, steps);
    }
    spot
}
