//! Nodes are asked again, along those that hold something to ask.

ghost use Rattle.std.specs.Prelude.{◌≡◌, ◌+◌, ◌*◌, ℕ, Some, None, IfOk, OnOk};
ghost use Rattle.pz_classes_code.specs.pz_syntax.Classes.{ModelTree};
ghost use Rattle.pz_part_queries.specs.pz_eval.Known.{AreKnown};
ghost use Rattle.pz_nodes.specs.Arena.{find, Updates};
ghost use Rattle.pz_part_queries.specs.Standpoints.{Knows, seen_from};
ghost use Rattle.pz_tree_nodes.specs.pz_tree_standing.Heads.{inner_frame};
ghost use Rattle.pz_tree_nodes.specs.View.{head_view};
ghost use Rattle.pz_tree_refreshing.specs.Refreshing.{RefreshRule};
ghost use Rattle.pz_tree_refreshing.specs.devices.Levels as levels;
ghost use Rattle.pz_tree_refreshing.specs.devices.Levels.{NodeRule, AtRule, KidRule, KidsRule};

use crate::Spot;
use crate::asking::ask;
use pz_nodes::{Key, Nodes, Steps};
use pz_part_queries::Standpoint;
use pz_state::State;
use pz_tree_nodes::{
    Head, Kept, Node, What, behind_inside, clock_inside, frame_inside, fuel_for, hollow, later,
    put_back, pz_tree_standing, reaches,
};
use std::alloc::{AllocError, Global};
use std::sync::ledger::Ledger;

/// What a node keeps, from what it kept and what it adds to what its active children keep.
fn written(before: &Kept, now: &Kept) -> Kept
    ensures { result ≡ levels.written before.now now.now }
{
    Kept {
        asks: before.asks,
        height: before.height,
        ..*now
    }
}

/// A node that keeps that something is asked.
#[cycle(refreshing)]
fn refresh_node<L: Ledger>(
    alloc: Global,
    here: &Standpoint<'_>,
    state: &mut State,
    nodes: &mut Nodes<Node>,
    spot: Spot,
    fuel: u64,
    steps: &mut Steps<L>,
) -> Result<Kept, AllocError>
    requires { AreKnown here.now.classes.now }
    ensures rule { IfOk result (λ kept. (m : ModelTree) (class : ℕ) → Knows m here.now →
        NodeRule (seen_from m here.now class state.old.held) (find nodes.old) (find nodes.new)
        spot.frame.0 spot.clock fuel spot.key kept steps.old steps.new) }
    ensures state { state.new ≡ state.old }
{
    let Some(less) = fuel.checked_sub(1) else {
        return Ok(Kept::none());
    };
    let Some(node) = nodes.set(spot.key, hollow(), steps) else {
        return Ok(Kept::none());
    };
    let Node { what, kids } = node;
    let before = what.kept;
    let asked = ask(alloc, here, state, spot, what.into_head())?;
    let keys = kids.as_slice();
    let all = refresh_kids(
        alloc,
        here,
        state,
        nodes,
        &asked.head,
        keys,
        spot,
        less,
        steps,
    )?;
    let kept = written(&before, &asked.kept.join(&all)?);
    let head = asked.into_head();
    let what = What { head, kept };
    put_back(nodes, spot.key, Node { what, kids }, steps);
    Ok(kept)
}

/// The children of a node, as far as they are active: what they keep, by the clock of the node.
#[cycle(refreshing)]
fn refresh_kids<L: Ledger>(
    alloc: Global,
    here: &Standpoint<'_>,
    state: &mut State,
    nodes: &mut Nodes<Node>,
    head: &Head,
    kids: &[Option<Key>],
    outer: Spot,
    fuel: u64,
    steps: &mut Steps<L>,
) -> Result<Kept, AllocError>
    requires { AreKnown here.now.classes.now }
    ensures rule { IfOk result (λ all. (m : ModelTree) (class : ℕ) → Knows m here.now →
        KidsRule (seen_from m here.now class state.old.held) (find nodes.old) (find nodes.new)
        (inner_frame (head_view head.now) outer.frame.0) (head_view head.now) outer.clock 0
        fuel kids.now all steps.old steps.new) }
    ensures state { state.new ≡ state.old }
{
    let mut all = Kept::none();
    for (number, kid) in kids.iter().enumerate() {
        let kept = refresh_kid(
            alloc, here, state, nodes, head, number, *kid, outer, fuel, steps,
        )?;
        all = all.join(&kept)?;
    }
    Ok(all)
}

/// One child.
#[cycle(refreshing)]
fn refresh_kid<L: Ledger>(
    alloc: Global,
    here: &Standpoint<'_>,
    state: &mut State,
    nodes: &mut Nodes<Node>,
    head: &Head,
    number: usize,
    kid: Option<Key>,
    outer: Spot,
    fuel: u64,
    steps: &mut Steps<L>,
) -> Result<Kept, AllocError>
    requires { AreKnown here.now.classes.now }
    ensures rule { IfOk result (λ kept. (m : ModelTree) (class : ℕ) → Knows m here.now →
        KidRule (seen_from m here.now class state.old.held) (find nodes.old) (find nodes.new)
        (inner_frame (head_view head.now) outer.frame.0) (head_view head.now) outer.clock number
        fuel kid kept steps.old steps.new) }
    ensures state { state.new ≡ state.old }
{
    let Some(key) = kid else {
        return Ok(Kept::none());
    };
    if !reaches(head, number) {
        return Ok(Kept::none());
    }
    let spot = Spot {
        key,
        frame: frame_inside(head, outer.frame),
        clock: clock_inside(head, number, outer.clock),
    };
    let kept = refresh_at(alloc, here, state, nodes, spot, fuel, steps)?;
    Ok(later(&kept, behind_inside(head, number)))
}

/// A node, and what is below it, if it keeps that something is asked.
#[cycle(refreshing)]
fn refresh_at<L: Ledger>(
    alloc: Global,
    here: &Standpoint<'_>,
    state: &mut State,
    nodes: &mut Nodes<Node>,
    spot: Spot,
    fuel: u64,
    steps: &mut Steps<L>,
) -> Result<Kept, AllocError>
    requires { AreKnown here.now.classes.now }
    ensures rule { IfOk result (λ kept. (m : ModelTree) (class : ℕ) → Knows m here.now →
        AtRule (seen_from m here.now class state.old.held) (find nodes.old) (find nodes.new)
        spot.frame.0 spot.clock fuel spot.key kept steps.old steps.new) }
    ensures state { state.new ≡ state.old }
{
    let Some(node) = nodes.get(spot.key, steps) else {
        return Ok(Kept::none());
    };
    let kept = node.what.kept;
    if !kept.asks {
        return Ok(kept);
    }
    refresh_node(alloc, here, state, nodes, spot, fuel, steps)
}

/// What the parts of a process are asked at the clock of `here`, in this state, is asked again in the nodes
/// that stand under a key: guards, delays that have not begun and sends, as far as they are active. What
/// stands behind a guard whose test is true goes on from now on, and what stands behind another stands
/// still. Each node on the way keeps the summary that is made of what its active children keep. The nodes
/// stand for the same term, and the state stays as it is.
///
/// Takes three steps at most for each node on the way to what is asked, with the children of each. The only
/// error is want of memory, or that there is more to do than can be counted; then the nodes may only be
/// dropped.
pub fn refresh<L: Ledger>(
    alloc: Global,
    here: &Standpoint<'_>,
    state: &mut State,
    nodes: &mut Nodes<Node>,
    root: Spot,
    steps: &mut Steps<L>,
) -> Result<(), AllocError>
    requires { AreKnown here.now.classes.now }
    ensures refreshed { OnOk result ((m : ModelTree) (class : ℕ) → Knows m here.now →
        RefreshRule (seen_from m here.now class state.old.held) (find nodes.old) (find nodes.new)
        root.key root.frame.0 root.clock steps.old steps.new) }
    ensures state { state.new ≡ state.old }
{
    pz_tree_standing::laws::nodes_are_no_deeper();
    let Some(node) = nodes.get(root.key, steps) else {
        return Ok(());
    };
    let kept = node.what.kept;
    if !kept.asks {
        return Ok(());
    }
    let fuel = fuel_for(&kept);
    refresh_node(alloc, here, state, nodes, root, fuel, steps)?;
    Ok(())
}
