// A frame round what a part has become.

ghost use Rattle.std.specs.Prelude.{◌≡◌, ◌≤◌, ◌+◌, ◌∷◌, [], ℕ, List, IfOk};
ghost use Rattle.pz_nodes.specs.Arena.{find};
ghost use Rattle.pz_tree_nodes.specs.View.{head_view};
ghost use Rattle.pz_tree_nodes.specs.Dropping.{numbers};
ghost use Rattle.pz_tree_nodes.specs.pz_tree_standing.Heads.{frame};
ghost use Rattle.pz_tree_regrowing.specs.Regrowing.{at_work};
ghost use Rattle.pz_tree_regrowing.specs.devices.Levels.{FinishRule, LosingRule, BareRule, is_bare_head, is_bare_node};
ghost use Rattle.pz_rules.specs.Settings.{Home};

use crate::keeping::frame_kept;
use crate::nodes::{kept_of, kid_in, release, write};
use pz_classes_code::Slot;
use pz_classes_code::pz_items::{Items, Shared};
use pz_nodes::{Key, Nodes, Steps};
use pz_nodes_shapes::Kids;
use pz_rules::Term;
use pz_rules::pz_state::{FrameId, State};
use pz_term_around::in_frame;
use pz_tree_nodes::{Head, Node};
use std::alloc::{AllocError, Global};
use std::sync::ledger::Ledger;

/// A method that was called, as its node has it.
#[derive(Drop)]
pub(crate) struct Call {
    pub(crate) own: FrameId,
    pub(crate) inputs: usize,
    pub(crate) results: Shared<Items<Slot>>,
}

// Whether the node is a frame without outputs.
fn is_bare(head: &Head) -> bool
    ensures { result ≡ is_bare_head (head_view head.now) }
{
    match head {
        Head::Frame { results, .. } => results.get().as_slice().is_empty(),
        _ => false,
    }
}

fn is_bare_at<L: Ledger>(nodes: &Nodes<Node>, key: Option<Key>, steps: &mut Steps<L>) -> bool
    ensures bare { result ≡ is_bare_node (find nodes.now) key }
    ensures ticks { steps.new ≤ steps.old + 1 }
{
    let Some(key) = key else {
        return false;
    };
    match nodes.get(key, steps) {
        Some(node) => is_bare(&node.what.head),
        None => false,
    }
}

// Whether what stands under the key stands for a frame without outputs. A shift node is no part of it.
fn stands_bare<L: Ledger>(nodes: &Nodes<Node>, key: Key, steps: &mut Steps<L>) -> bool
    ensures bare { BareRule (find nodes.now) key result }
    ensures ticks { steps.new ≤ steps.old + 2 }
{
    let Some(node) = nodes.get(key, steps) else {
        return false;
    };
    match &node.what.head {
        Head::Shifted(_) => is_bare_at(nodes, kid_in(&node.kids, 0), steps),
        head => is_bare(head),
    }
}

// The frame is done: its outputs go to the variables of the frame around it.
fn end_frame<L: Ledger>(
    alloc: Global,
    nodes: &mut Nodes<Node>,
    key: Key,
    outer: FrameId,
    call: Call,
    state: &mut State,
    lost: &mut Vec<FrameId>,
    steps: &mut Steps<L>,
) -> Result<Option<Key>, AllocError>
    ensures { IfOk result (λ out. (home : Home) (c i : ℕ) (fresh : List ℕ) →
        FinishRule home outer.0 c key
        (frame call.own.0 call.inputs call.results) (None ∷ []) i out
        (at_work (find nodes.old) state.old (numbers lost.old.items) fresh steps.old)
        (at_work (find nodes.new) state.new (numbers lost.new.items) fresh steps.new)) }
{
    release(nodes, key, steps);
    let Call {
        own,
        inputs,
        results,
    } = call;
    let _done = in_frame(alloc, outer, own, inputs, results, Term::Done, state)?;
    lost.push(own)?;
    Ok(None)
}

// A frame round what is not done. One without outputs that is all of a frame without outputs stands in its
// place.
fn frame_round<L: Ledger>(
    nodes: &mut Nodes<Node>,
    key: Key,
    kid: Key,
    call: Call,
    lost: &mut Vec<FrameId>,
    steps: &mut Steps<L>,
) -> Result<Option<Key>, AllocError>
    ensures { IfOk result (λ out. (c i : ℕ) → LosingRule c key
        (frame call.own.0 call.inputs call.results) (Some kid ∷ []) i out (find nodes.old)
        (find nodes.new)
        (numbers lost.old.items) (numbers lost.new.items) steps.old steps.new) }
{
    let bare = stands_bare(nodes, kid, steps);
    if bare && call.results.get().as_slice().is_empty() {
        release(nodes, key, steps);
        lost.push(call.own)?;
        return Ok(Some(kid));
    }
    let body = kept_of(nodes, Some(kid), steps);
    let kept = frame_kept(&body)?;
    let Call {
        own,
        inputs,
        results,
    } = call;
    let head = Head::Frame {
        frame: own,
        inputs,
        results,
    };
    write(nodes, key, head, Kids::one(Some(kid)), kept, steps);
    Ok(Some(key))
}

/// The body of a method that stands in the frame `outer` has become another, or is done.
pub(crate) fn finish_frame<L: Ledger>(
    alloc: Global,
    nodes: &mut Nodes<Node>,
    key: Key,
    outer: FrameId,
    call: Call,
    left: Option<Key>,
    state: &mut State,
    lost: &mut Vec<FrameId>,
    steps: &mut Steps<L>,
) -> Result<Option<Key>, AllocError>
    ensures { IfOk result (λ out. (home : Home) (c i : ℕ) (fresh : List ℕ) →
        FinishRule home outer.0 c key
        (frame call.own.0 call.inputs call.results) (left ∷ []) i out
        (at_work (find nodes.old) state.old (numbers lost.old.items) fresh steps.old)
        (at_work (find nodes.new) state.new (numbers lost.new.items) fresh steps.new)) }
{
    match left {
        None => end_frame(alloc, nodes, key, outer, call, state, lost, steps),
        Some(kid) => frame_round(nodes, key, kid, call, lost, steps),
    }
}
