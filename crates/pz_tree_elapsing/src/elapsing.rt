//! Time passes over nodes, along those in which something wakes.

ghost use Rattle.std.specs.Prelude.{◌≡◌, ◌+◌, ◌*◌, ℕ, true, Some, None, IfSome, IfOk, OnOk};
ghost use Rattle.pz_classes_code.specs.pz_syntax.Classes.{ModelTree};
ghost use Rattle.pz_tree_refreshing.specs.pz_eval.Known.{AreKnown};
ghost use Rattle.pz_nodes.specs.Arena.{find, Updates};
ghost use Rattle.pz_tree_refreshing.specs.pz_part_queries.Standpoints.{Knows, seen_from};
ghost use Rattle.pz_tree_refreshing.specs.pz_rules.Settings.{Context};
ghost use Rattle.pz_tree_refreshing.specs.pz_tree_standing.Heads.{inner_frame};
ghost use Rattle.pz_tree_refreshing.specs.pz_tree_nodes.View.{head_view};
ghost use Rattle.pz_tree_elapsing.specs.Elapsing.{ElapseRule};
ghost use Rattle.pz_tree_elapsing.specs.devices.Levels as levels;
ghost use Rattle.pz_tree_elapsing.specs.devices.Levels.{NodeRule, AtRule, KidRule, KidsRule, ReturnRule, TurnRule};

use crate::turning::{Turn, turn_of};
use crate::waking::{asks, wake, wakes};
use pz_nodes::{Key, Nodes, Steps};
use pz_state::State;
use pz_tree_refreshing::pz_part_queries::Standpoint;
use pz_tree_refreshing::pz_tree_nodes::pz_tree_standing::pz_rules;
use pz_tree_refreshing::pz_tree_nodes::pz_tree_standing::pz_rules::pz_eval_rules;
use pz_tree_refreshing::pz_tree_nodes::{
    Head, Kept, Node, What, behind_inside, clock_inside, frame_inside, fuel_for, hollow, later,
    put_back, pz_tree_standing, reaches,
};
use pz_tree_refreshing::{Spot, pz_tree_nodes, refresh};
use std::alloc::{AllocError, Global};
use std::sync::ledger::Ledger;

/// What a node keeps, from what it kept, whether something is asked at it or below it, and what it adds to
/// what its active children keep.
fn written(before: &Kept, asks: bool, now: &Kept) -> Kept
    ensures { result ≡ levels.written before.now asks now.now }
{
    Kept {
        asks,
        height: before.height,
        ..*now
    }
}

// ------------------------------------------------------------ what has become active

fn first_kid(kids: &[Option<Key>]) -> Option<Key>
    ensures { result ≡ levels.first_kid kids.now }
{
    match kids.first() {
        Some(kid) => *kid,
        None => None,
    }
}

/// What the node under a key keeps.
fn kept_under<L: Ledger>(nodes: &Nodes<Node>, key: Key, steps: &mut Steps<L>) -> Kept
    ensures kept { IfSome (find nodes.now key) (λ was. result ≡ was.what.kept) }
    ensures ticks { steps.new ≡ steps.old + 1 }
{
    match nodes.get(key, steps) {
        Some(node) => node.what.kept,
        None => Kept::none(),
    }
}

/// The first child has become active: it is refreshed. What it keeps, by the clock of the node.
fn returned<L: Ledger>(
    alloc: Global,
    here: &Standpoint<'_>,
    state: &mut State,
    nodes: &mut Nodes<Node>,
    head: &Head,
    kids: &[Option<Key>],
    outer: Spot,
    steps: &mut Steps<L>,
) -> Result<Kept, AllocError>
    requires { AreKnown here.now.classes.now }
    ensures rule { IfOk result (λ kept. (m : ModelTree) (class : ℕ) → Knows m here.now →
        ReturnRule (seen_from m here.now class state.old.held) (find nodes.old) (find nodes.new)
        (inner_frame (head_view head.now) outer.frame.0) (head_view head.now) outer.clock
        (levels.first_kid kids.now) kept steps.old steps.new) }
    ensures state { state.new ≡ state.old }
{
    let Some(key) = first_kid(kids) else {
        return Ok(Kept::none());
    };
    let spot = Spot {
        key,
        frame: frame_inside(head, outer.frame),
        clock: clock_inside(head, 0, outer.clock),
    };
    refresh(alloc, here, state, nodes, spot, steps)?;
    let kept = kept_under(nodes, key, steps);
    Ok(later(&kept, behind_inside(head, 0)))
}

/// What the active children of a node keep, where its gate has turned, from what those kept that were active
/// before.
fn turned<L: Ledger>(
    alloc: Global,
    here: &Standpoint<'_>,
    state: &mut State,
    nodes: &mut Nodes<Node>,
    turn: Turn,
    head: &Head,
    kids: &[Option<Key>],
    before: Kept,
    outer: Spot,
    steps: &mut Steps<L>,
) -> Result<Kept, AllocError>
    requires { AreKnown here.now.classes.now }
    ensures rule { IfOk result (λ kept. (m : ModelTree) (class : ℕ) → Knows m here.now →
        TurnRule turn (seen_from m here.now class state.old.held) (find nodes.old) (find nodes.new)
        (inner_frame (head_view head.now) outer.frame.0) (head_view head.now) outer.clock
        kids.now before kept steps.old steps.new) }
    ensures state { state.new ≡ state.old }
{
    match turn {
        Turn::Same => Ok(before),
        Turn::Shut => Ok(Kept::none()),
        Turn::Opened => returned(alloc, here, state, nodes, head, kids, outer, steps),
    }
}

// ------------------------------------------------------------ nodes

/// A node in which something wakes.
#[cycle(elapsing)]
fn elapse_node<L: Ledger>(
    alloc: Global,
    here: &Standpoint<'_>,
    state: &mut State,
    nodes: &mut Nodes<Node>,
    spot: Spot,
    fuel: u64,
    steps: &mut Steps<L>,
) -> Result<Kept, AllocError>
    requires { AreKnown here.now.classes.now }
    ensures rule { IfOk result (λ kept. (m : ModelTree) (class : ℕ) → Knows m here.now →
        NodeRule (seen_from m here.now class state.old.held) (find nodes.old) (find nodes.new)
        spot.frame.0 spot.clock fuel spot.key kept steps.old steps.new) }
    ensures state { state.new ≡ state.old }
{
    let Some(less) = fuel.checked_sub(1) else {
        return Ok(Kept::none());
    };
    let Some(node) = nodes.set(spot.key, hollow(), steps) else {
        return Ok(Kept::none());
    };
    let Node { what, kids } = node;
    let before = what.kept;
    let head = what.into_head();
    let keys = kids.as_slice();
    let stayed = elapse_kids(alloc, here, state, nodes, &head, keys, spot, less, steps)?;
    let was_open = reaches(&head, 0);
    let woken = wake(alloc, here, state, spot, head, &before)?;
    let turn = turn_of(was_open, &woken.head);
    let all = turned(
        alloc,
        here,
        state,
        nodes,
        turn,
        &woken.head,
        keys,
        stayed,
        spot,
        steps,
    )?;
    let asks = asks(&woken.head, &all);
    let kept = written(&before, asks, &woken.kept.join(&all)?);
    let head = woken.into_head();
    let what = What { head, kept };
    put_back(nodes, spot.key, Node { what, kids }, steps);
    Ok(kept)
}

/// The children of a node, as far as they are active: what they keep, by the clock of the node.
#[cycle(elapsing)]
fn elapse_kids<L: Ledger>(
    alloc: Global,
    here: &Standpoint<'_>,
    state: &mut State,
    nodes: &mut Nodes<Node>,
    head: &Head,
    kids: &[Option<Key>],
    outer: Spot,
    fuel: u64,
    steps: &mut Steps<L>,
) -> Result<Kept, AllocError>
    requires { AreKnown here.now.classes.now }
    ensures rule { IfOk result (λ all. (m : ModelTree) (class : ℕ) → Knows m here.now →
        KidsRule (seen_from m here.now class state.old.held) (find nodes.old) (find nodes.new)
        (inner_frame (head_view head.now) outer.frame.0) (head_view head.now) outer.clock 0
        fuel kids.now all steps.old steps.new) }
    ensures state { state.new ≡ state.old }
{
    let mut all = Kept::none();
    for (number, kid) in kids.iter().enumerate() {
        let kept = elapse_kid(
            alloc, here, state, nodes, head, number, *kid, outer, fuel, steps,
        )?;
        all = all.join(&kept)?;
    }
    Ok(all)
}

/// One child.
#[cycle(elapsing)]
fn elapse_kid<L: Ledger>(
    alloc: Global,
    here: &Standpoint<'_>,
    state: &mut State,
    nodes: &mut Nodes<Node>,
    head: &Head,
    number: usize,
    kid: Option<Key>,
    outer: Spot,
    fuel: u64,
    steps: &mut Steps<L>,
) -> Result<Kept, AllocError>
    requires { AreKnown here.now.classes.now }
    ensures rule { IfOk result (λ kept. (m : ModelTree) (class : ℕ) → Knows m here.now →
        KidRule (seen_from m here.now class state.old.held) (find nodes.old) (find nodes.new)
        (inner_frame (head_view head.now) outer.frame.0) (head_view head.now) outer.clock number
        fuel kid kept steps.old steps.new) }
    ensures state { state.new ≡ state.old }
{
    let Some(key) = kid else {
        return Ok(Kept::none());
    };
    if !reaches(head, number) {
        return Ok(Kept::none());
    }
    let spot = Spot {
        key,
        frame: frame_inside(head, outer.frame),
        clock: clock_inside(head, number, outer.clock),
    };
    let kept = elapse_at(alloc, here, state, nodes, spot, fuel, steps)?;
    Ok(later(&kept, behind_inside(head, number)))
}

/// A node, and what is below it, if something wakes in it.
#[cycle(elapsing)]
fn elapse_at<L: Ledger>(
    alloc: Global,
    here: &Standpoint<'_>,
    state: &mut State,
    nodes: &mut Nodes<Node>,
    spot: Spot,
    fuel: u64,
    steps: &mut Steps<L>,
) -> Result<Kept, AllocError>
    requires { AreKnown here.now.classes.now }
    ensures rule { IfOk result (λ kept. (m : ModelTree) (class : ℕ) → Knows m here.now →
        AtRule (seen_from m here.now class state.old.held) (find nodes.old) (find nodes.new)
        spot.frame.0 spot.clock fuel spot.key kept steps.old steps.new) }
    ensures state { state.new ≡ state.old }
{
    pz_tree_standing::laws::still_right();
    pz_tree_nodes::laws::unwoken_nodes_stay();
    pz_tree_standing::laws::steady_terms_keep_summaries();
    let Some(node) = nodes.get(spot.key, steps) else {
        return Ok(Kept::none());
    };
    let kept = node.what.kept;
    if !wakes(&kept, spot.clock) {
        return Ok(kept);
    }
    elapse_node(alloc, here, state, nodes, spot, fuel, steps)
}

/// Time passes over the nodes that stand under a key. `here` and the clock of `root` show the moment when it
/// has passed, in which the state is as before. An active delay that has not begun begins, and is over when
/// its node said it would be; one that is over can act. What an active part is asked and names the clock is
/// asked again. What stands behind a guard whose test is true now and was not goes on from now on, and is
/// refreshed; what is not active stands still. All other nodes stay as they are.
///
/// Takes four steps at most for each node in which something wakes, with its active children, and for each
/// live node of what becomes active. The only error is want of memory, or that there is more to do than can
/// be counted; then the nodes may only be dropped.
pub fn elapse<L: Ledger>(
    alloc: Global,
    here: &Standpoint<'_>,
    state: &mut State,
    nodes: &mut Nodes<Node>,
    root: Spot,
    steps: &mut Steps<L>,
) -> Result<(), AllocError>
    requires { AreKnown here.now.classes.now }
    ensures elapsed { OnOk result ((m : ModelTree) (class : ℕ) → Knows m here.now →
        ElapseRule (seen_from m here.now class state.old.held) (find nodes.old) (find nodes.new)
        root.key root.frame.0 root.clock steps.old steps.new) }
    ensures state { state.new ≡ state.old }
{
    pz_tree_standing::laws::nodes_are_no_deeper();
    pz_eval_rules::laws::unclocked_is_timeless();
    pz_rules::laws::passing_is_computed();
    let Some(node) = nodes.get(root.key, steps) else {
        return Ok(());
    };
    let fuel = fuel_for(&node.what.kept);
    elapse_at(alloc, here, state, nodes, root, fuel, steps)?;
    Ok(())
}

/// Whether nothing wakes in the nodes that stand under a key, as time passes to the moment that the clock of `root`
/// shows. Then these nodes, as they are, stand for what the passing leaves. Takes one step.
pub fn rests<L: Ledger>(nodes: &Nodes<Node>, root: Spot, steps: &mut Steps<L>) -> bool
    ensures rests { result ≡ true → (b : Context) → ElapseRule b (find nodes.now) (find nodes.now)
        root.key root.frame.0 root.clock steps.old steps.new }
    ensures ticks { steps.new ≡ steps.old + 1 }
{
    pz_tree_standing::laws::nodes_are_no_deeper();
    pz_tree_standing::laws::still_right();
    pz_tree_nodes::laws::unwoken_nodes_stay();
    pz_tree_standing::laws::steady_terms_keep_summaries();
    pz_eval_rules::laws::unclocked_is_timeless();
    pz_rules::laws::passing_is_computed();
    match nodes.get(root.key, steps) {
        Some(node) => !wakes(&node.what.kept, root.clock),
        None => false,
    }
}
