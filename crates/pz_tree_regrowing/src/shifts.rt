// What a guard leaves whose clock is behind.

ghost use Rattle.std.specs.Prelude.{◌≡◌, ◌≤◌, ◌+◌, None, MatchOption};
ghost use Rattle.pz_nodes.specs.Arena.{find};
ghost use Rattle.pz_tree_regrowing.specs.devices.Levels.{IsShiftAt, IsNoShiftAt, ShiftRule, IsPutOver};

use crate::clocks::{behind_now, running};
use crate::keeping::behind_kept;
use crate::nodes::{kept_of, kid_in, release, write};
use pz_nodes::{Key, Nodes, Steps};
use pz_nodes_shapes::Kids;
use pz_tree_nodes::{Head, Node};
use std::sync::ledger::Ledger;

/// A shift node: how far what is below it is behind, in clock units, if it runs from now on, and its child.
#[derive(Clone, Copy)]
pub(crate) struct Behind {
    pub(crate) by: u128,
    pub(crate) below: Option<Key>,
}

/// The shift node under the key, where the clock around it shows so much; None where another node stands
/// there, or none.
pub(crate) fn shift_at<L: Ledger>(
    nodes: &Nodes<Node>,
    key: Key,
    clock: u128,
    steps: &mut Steps<L>,
) -> Option<Behind>
    ensures shift { MatchOption result (IsNoShiftAt (find nodes.now) key)
        (λ found. IsShiftAt (find nodes.now) key clock found.by found.below) }
    ensures ticks { steps.new ≡ steps.old + 1 }
{
    let node = nodes.get(key, steps)?;
    match &node.what.head {
        Head::Shifted(shift) => Some(Behind {
            by: behind_now(shift, clock),
            below: kid_in(&node.kids, 0),
        }),
        _ => None,
    }
}

// A shift node over what stands there.
fn put_over<L: Ledger>(
    nodes: &mut Nodes<Node>,
    key: Key,
    behind: u128,
    below: Option<Key>,
    steps: &mut Steps<L>,
) -> Option<Key>
    ensures put { IsPutOver (find nodes.old) (find nodes.new) key behind below result }
    ensures ticks { steps.new ≤ steps.old + 2 }
{
    let inner = kept_of(nodes, below, steps);
    let kept = behind_kept(behind, &inner);
    let head = Head::Shifted(running(behind));
    write(nodes, key, head, Kids::one(below), kept, steps);
    Some(key)
}

/// The node in hand becomes a shift node over what is left, which is behind by so many clock units; it is
/// gone where nothing is left or nothing is behind. Two shift nodes, one under the other, become one.
pub(crate) fn put_shift<L: Ledger>(
    nodes: &mut Nodes<Node>,
    key: Key,
    behind: u128,
    clock: u128,
    left: Option<Key>,
    steps: &mut Steps<L>,
) -> Option<Key>
    ensures { ShiftRule (find nodes.old) (find nodes.new) key behind clock left result
        steps.old steps.new }
{
    let Some(kid) = left else {
        release(nodes, key, steps);
        return None;
    };
    if behind == 0 {
        release(nodes, key, steps);
        return left;
    }
    let inner = clock.saturating_sub(behind);
    let Some(further) = shift_at(nodes, kid, inner, steps) else {
        return put_over(nodes, key, behind, left, steps);
    };
    release(nodes, kid, steps);
    let both = behind.saturating_add(further.by);
    put_over(nodes, key, both, further.below, steps)
}
