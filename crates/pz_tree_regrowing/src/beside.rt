// Of parts side by side, one of which has become another.

ghost use Rattle.std.specs.Prelude.{◌≡◌, ◌&&◌};
ghost use Rattle.pz_nodes.specs.Arena.{find};
ghost use Rattle.pz_tree_regrowing.specs.devices.Levels.{are_gone};
ghost use Rattle.pz_tree_nodes.specs.pz_tree_standing.Heads.{parallel};
ghost use Rattle.pz_tree_regrowing.specs.devices.Outlining.{RoundRule};

use crate::reading::{all_gone, greatest_under};
use pz_nodes::{Key, Nodes, Steps};
use pz_term_outlines::{Outline, outline_above, outline_done};
use pz_tree_nodes::Node;
use std::sync::ledger::Ledger;

/// Whether nothing is left of parts side by side, of which one is done or not.
fn stand_done(before: &[Option<Key>], left: bool, behind: &[Option<Key>]) -> bool
    ensures { result ≡ (are_gone before.now && (left && are_gone behind.now)) }
{
    all_gone(before) && left && all_gone(behind)
}

/// Of parts side by side under these keys, of which the one of this number has become another.
pub(crate) fn outline_parallel<L: Ledger>(
    nodes: &Nodes<Node>,
    keys: &[Option<Key>],
    number: usize,
    left: Outline,
    steps: &mut Steps<L>,
) -> Outline
    ensures { RoundRule (find nodes.now) parallel keys.now number left result steps.old steps.new }
{
    if number >= keys.len() {
        return left;
    }
    let (before, from) = keys.split_at(number);
    let Some((_, behind)) = from.split_first() else {
        return left;
    };
    if stand_done(before, left.done, behind) {
        return outline_done();
    }
    let first = greatest_under(nodes, before, steps);
    let last = greatest_under(nodes, behind, steps);
    let others = left.height.max(last);
    outline_above(first.max(others))
}
