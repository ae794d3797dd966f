// The outline of a term once a part of it has become another, from the part up.

ghost use Rattle.std.specs.Prelude.{◌≡◌};
ghost use Rattle.pz_nodes.specs.Arena.{find};
ghost use Rattle.pz_term_around.specs.pz_part_opening.Homes.{home_view};
ghost use Rattle.pz_rules.specs.View.{term_view};
ghost use Rattle.pz_tree_nodes.specs.View.{head_view};
ghost use Rattle.pz_tree_regrowing.specs.Heights.{LowRule, FewSteps};
ghost use Rattle.pz_clock.specs.Shifts.{ShiftView};
ghost use Rattle.pz_classes_code.specs.StepView.{view};
ghost use Rattle.pz_tree_nodes.specs.pz_tree_standing.Heads.{abort, idle};
ghost use Rattle.pz_tree_regrowing.specs.devices.Outlining.{RoundRule, HomeRoundRule, SecondRule, OutlineRule, BareOutlineRule};

use crate::beside::outline_parallel;
use crate::reading::{height_under, kid_in, past_shift};
use pz_classes_code::Step;
use pz_nodes::{Key, Nodes, Steps};
use pz_nodes_shapes::Kids;
use pz_rules::Term;
use pz_term_around::pz_part_opening::Home;
use pz_term_outlines::{
    Outline, outline_first, outline_frame, outline_of, outline_second, outline_sequence,
};
use pz_tree_nodes::{Head, Node};
use std::sync::ledger::Ledger;

// Of two parts, of which the first acts until the second does.
fn outline_abort<L: Ledger>(
    nodes: &Nodes<Node>,
    kids: &Kids,
    number: usize,
    left: Outline,
    steps: &mut Steps<L>,
) -> Outline
    ensures { RoundRule (find nodes.now) abort kids.now number left result steps.old steps.new }
{
    if number != 0 {
        return left;
    }
    let second = height_under(nodes, kid_in(kids, 1), steps);
    outline_first(left, second)
}

// The same of an interrupt that is not at work.
fn outline_idle<L: Ledger>(
    home: &Home<'_>,
    nodes: &Nodes<Node>,
    again: &Step,
    kids: &Kids,
    number: usize,
    left: Outline,
    steps: &mut Steps<L>,
) -> Outline
    ensures { (shift : ShiftView) → HomeRoundRule (home_view home.now) (find nodes.now)
        (idle (view again.now) shift) kids.now number left result steps.old steps.new }
{
    if number == 0 {
        let second = height_under(nodes, kid_in(kids, 1), steps);
        return outline_first(left, second);
    }
    outline_handling(home, nodes, again, kids, left, steps)
}

// An interrupt whose second part has become another.
fn outline_handling<L: Ledger>(
    home: &Home<'_>,
    nodes: &Nodes<Node>,
    again: &Step,
    kids: &Kids,
    left: Outline,
    steps: &mut Steps<L>,
) -> Outline
    ensures { SecondRule (home_view home.now) (find nodes.now) (view again.now) kids.now left result
        steps.old steps.new }
{
    let first = height_under(nodes, kid_in(kids, 0), steps);
    outline_second(home, first, left, again)
}

// Of what is around a part that has become another, on one level.
fn outline_round<L: Ledger>(
    home: &Home<'_>,
    nodes: &Nodes<Node>,
    head: &Head,
    kids: &Kids,
    number: usize,
    left: Outline,
    steps: &mut Steps<L>,
) -> Outline
    ensures { HomeRoundRule (home_view home.now) (find nodes.now) (head_view head.now)
        kids.now number
        left result steps.old steps.new }
{
    match head {
        // Nothing acts below these.
        Head::Leaf(_) | Head::Wait { .. } | Head::Shifted(_) => left,
        Head::Seq(rest) => outline_sequence(home, left, rest),
        Head::Par => outline_parallel(nodes, kids.as_slice(), number, left, steps),
        // What acts is all that is left.
        Head::Sel | Head::Guard { .. } => left,
        Head::Frame { results, .. } => outline_frame(results, left),
        Head::Abort => outline_abort(nodes, kids, number, left, steps),
        Head::Idle(again, _) => {
            outline_idle(home, nodes, again.get(), kids, number, left, steps)
        }
        Head::Handling(again, _) => {
            outline_handling(home, nodes, again.get(), kids, left, steps)
        }
    }
}

// Where no shift node stands on top.
#[cycle(outlines)]
fn outline_bare<L: Ledger>(
    home: &Home<'_>,
    nodes: &Nodes<Node>,
    key: Option<Key>,
    place: &[usize],
    part: Outline,
    steps: &mut Steps<L>,
) -> Outline
    ensures { BareOutlineRule (home_view home.now) (find nodes.now) key place.now part
        result steps.old
        steps.new }
{
    let Some((number, inner)) = place.split_first() else {
        return part;
    };
    // Nothing acts in what is done.
    let Some(key) = key else {
        return part;
    };
    let Some(node) = nodes.get(key, steps) else {
        return part;
    };
    let child = kid_in(&node.kids, *number);
    let left = outline_after(home, nodes, child, inner, part, steps);
    outline_round(
        home,
        nodes,
        &node.what.head,
        &node.kids,
        *number,
        left,
        steps,
    )
}

// Of the term under a key, once its part at the place has become one of this outline.
#[cycle(outlines)]
fn outline_after<L: Ledger>(
    home: &Home<'_>,
    nodes: &Nodes<Node>,
    key: Option<Key>,
    place: &[usize],
    part: Outline,
    steps: &mut Steps<L>,
) -> Outline
    ensures { OutlineRule (home_view home.now) (find nodes.now) key place.now part result steps.old
        steps.new }
{
    let bare = past_shift(nodes, key, steps);
    outline_bare(home, nodes, bare, place, part, steps)
}

/// Whether the term that stands at `root` will be no higher than the limit once its part at the place has
/// become this one. Of what stays no more is seen than what nodes beside the way keep: at most three steps
/// for each part on the way and each that stands beside one of them in a `par`. Takes no memory, as much of
/// the stack as the part is deep, and a time that is linear in the new part and in what opens.
pub fn stays_low<L: Ledger>(
    home: &Home<'_>,
    nodes: &Nodes<Node>,
    root: Option<Key>,
    place: &[usize],
    part: &Term,
    limit: u32,
    steps: &mut Steps<L>,
) -> bool
    ensures low { LowRule (home_view home.now) (find nodes.now) root place.now
        (term_view part.now) limit
        result }
    ensures ticks { FewSteps (find nodes.now) root place.now steps.old steps.new }
{
    let after = outline_after(home, nodes, root, place, outline_of(part), steps);
    after.height <= u64::from(limit)
}
