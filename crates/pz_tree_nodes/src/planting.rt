//! A term becomes nodes. The only error is want of memory.

ghost use Rattle.std.specs.Prelude.{◌≡◌, ◌+◌, ◌∷◌, [], ℕ, IfOk, OnOk};
ghost use Rattle.pz_nodes.specs.Arena.{find};
ghost use Rattle.pz_classes_code.specs.CodeView as code;
ghost use Rattle.pz_classes_code.specs.StepView.{view, sequence_view};
ghost use Rattle.pz_rules.specs.Terms as terms;
ghost use Rattle.pz_rules.specs.View.{term_view, terms_view};
ghost use Rattle.pz_tree_nodes.specs.Planting.{EndsInTime, nodes_of, Planted};
ghost use Rattle.pz_tree_nodes.specs.devices.Parts.{PartRule, TwoRule, AllRule};

use crate::children::{PlantedAll, PlantedPart, PlantedTwo, exchange, put, put_over};
use crate::leaves::{leaf_kept, second_alone, unasked, wait_kept};
use crate::{Head, Kept, Node};
use pz_classes_code::pz_items::{Boxed, Items, Shared};
use pz_classes_code::pz_syntax::Pos;
use pz_classes_code::{Code, Slot, Step};
use pz_clock::Shift;
use pz_nodes::{Key, Nodes, Steps};
use pz_nodes_shapes::Kids;
use pz_rules::pz_state::FrameId;
use pz_rules::{Rest, Term};
use std::alloc::{AllocError, Global};
use std::sync::ledger::Ledger;

// A statement that has not begun.
fn plant_leaf<L: Ledger>(
    nodes: &mut Nodes<Node>,
    step: Step,
    steps: &mut Steps<L>,
) -> Result<PlantedPart, AllocError>
    ensures { (c : ℕ) → IfOk result (λ part. PartRule (find nodes.old) (find nodes.new) c
        (terms.leaf (view step)) part.key part.kept steps.old steps.new) }
{
    let kept = leaf_kept(&step);
    put(nodes, Head::Leaf(step), Kids::none(), kept, steps)
}

// A delay that has begun, of which so much is left.
fn plant_wait<L: Ledger>(
    nodes: &mut Nodes<Node>,
    left: u128,
    pos: Pos,
    clock: u128,
    steps: &mut Steps<L>,
) -> Result<PlantedPart, AllocError>
    ensures { IfOk result (λ part. PartRule (find nodes.old) (find nodes.new) clock
        (terms.wait left pos) part.key part.kept steps.old steps.new) }
{
    let due = clock.saturating_add(left);
    let kept = wait_kept(left, due);
    put(nodes, Head::Wait { due, pos }, Kids::none(), kept, steps)
}

#[cycle(planting)]
fn plant_sequence<L: Ledger>(
    alloc: Global,
    nodes: &mut Nodes<Node>,
    part: Boxed<Term>,
    rest: Rest,
    clock: u128,
    steps: &mut Steps<L>,
) -> Result<PlantedPart, AllocError>
    ensures { IfOk result (λ whole. PartRule (find nodes.old) (find nodes.new) clock
        (terms.sequence (term_view part) (sequence_view rest)) whole.key whole.kept
        steps.old steps.new) }
{
    let part = plant_boxed(alloc, nodes, part, clock, steps)?;
    put_over(
        nodes,
        Head::Seq(rest),
        Kids::one(part.key),
        &part.kept,
        steps,
    )
}

#[cycle(planting)]
fn plant_parallel<L: Ledger>(
    alloc: Global,
    nodes: &mut Nodes<Node>,
    parts: Items<Term>,
    clock: u128,
    steps: &mut Steps<L>,
) -> Result<PlantedPart, AllocError>
    ensures { IfOk result (λ whole. PartRule (find nodes.old) (find nodes.new) clock
        (terms.parallel (terms_view parts)) whole.key whole.kept steps.old steps.new) }
{
    let all = plant_all(alloc, nodes, parts, clock, steps)?;
    put_over(nodes, Head::Par, all.kids, &all.kept, steps)
}

#[cycle(planting)]
fn plant_select<L: Ledger>(
    alloc: Global,
    nodes: &mut Nodes<Node>,
    parts: Items<Term>,
    clock: u128,
    steps: &mut Steps<L>,
) -> Result<PlantedPart, AllocError>
    ensures { IfOk result (λ whole. PartRule (find nodes.old) (find nodes.new) clock
        (terms.select (terms_view parts)) whole.key whole.kept steps.old steps.new) }
{
    let all = plant_all(alloc, nodes, parts, clock, steps)?;
    put_over(nodes, Head::Sel, all.kids, &all.kept, steps)
}

#[cycle(planting)]
fn plant_guard<L: Ledger>(
    alloc: Global,
    nodes: &mut Nodes<Node>,
    test: Shared<Code>,
    pos: Pos,
    body: Boxed<Term>,
    clock: u128,
    steps: &mut Steps<L>,
) -> Result<PlantedPart, AllocError>
    ensures { IfOk result (λ whole. PartRule (find nodes.old) (find nodes.new) clock
        (terms.guarded (code.view test) pos (term_view body)) whole.key whole.kept
        steps.old steps.new) }
{
    let body = plant_boxed(alloc, nodes, body, clock, steps)?;
    let shift = Shift::new();
    let head = Head::Guard { test, pos, shift };
    let kept = unasked(&body.kept);
    put_over(nodes, head, Kids::one(body.key), &kept, steps)
}

#[cycle(planting)]
fn plant_frame<L: Ledger>(
    alloc: Global,
    nodes: &mut Nodes<Node>,
    frame: FrameId,
    inputs: usize,
    results: Shared<Items<Slot>>,
    body: Boxed<Term>,
    clock: u128,
    steps: &mut Steps<L>,
) -> Result<PlantedPart, AllocError>
    ensures { IfOk result (λ whole. PartRule (find nodes.old) (find nodes.new) clock
        (terms.frame frame.0 inputs results (term_view body)) whole.key whole.kept
        steps.old steps.new) }
{
    let body = plant_boxed(alloc, nodes, body, clock, steps)?;
    let head = Head::Frame {
        frame,
        inputs,
        results,
    };
    put_over(nodes, head, Kids::one(body.key), &body.kept, steps)
}

#[cycle(planting)]
fn plant_abort<L: Ledger>(
    alloc: Global,
    nodes: &mut Nodes<Node>,
    first: Boxed<Term>,
    second: Boxed<Term>,
    clock: u128,
    steps: &mut Steps<L>,
) -> Result<PlantedPart, AllocError>
    ensures { IfOk result (λ whole. PartRule (find nodes.old) (find nodes.new) clock
        (terms.abort (term_view first) (term_view second)) whole.key whole.kept
        steps.old steps.new) }
{
    let two = plant_two(alloc, nodes, first, second, clock, steps)?;
    let kept = two.first.join(&two.second)?;
    put_over(nodes, Head::Abort, two.kids, &kept, steps)
}

#[cycle(planting)]
fn plant_idle<L: Ledger>(
    alloc: Global,
    nodes: &mut Nodes<Node>,
    first: Boxed<Term>,
    second: Boxed<Term>,
    again: Shared<Step>,
    clock: u128,
    steps: &mut Steps<L>,
) -> Result<PlantedPart, AllocError>
    ensures { IfOk result (λ whole. PartRule (find nodes.old) (find nodes.new) clock
        (terms.idle (term_view first) (term_view second) (view again)) whole.key whole.kept
        steps.old steps.new) }
{
    let two = plant_two(alloc, nodes, first, second, clock, steps)?;
    let kept = two.first.join(&two.second)?;
    let head = Head::Idle(again, Shift::new());
    put_over(nodes, head, two.kids, &kept, steps)
}

// What is interrupted stands still.
#[cycle(planting)]
fn plant_handling<L: Ledger>(
    alloc: Global,
    nodes: &mut Nodes<Node>,
    first: Boxed<Term>,
    second: Boxed<Term>,
    again: Shared<Step>,
    clock: u128,
    steps: &mut Steps<L>,
) -> Result<PlantedPart, AllocError>
    ensures { IfOk result (λ whole. PartRule (find nodes.old) (find nodes.new) clock
        (terms.handling (term_view first) (term_view second) (view again)) whole.key whole.kept
        steps.old steps.new) }
{
    let two = plant_two(alloc, nodes, first, second, clock, steps)?;
    let shift = Shift::new().freeze(clock);
    let kept = second_alone(&two.first, &two.second);
    put_over(nodes, Head::Handling(again, shift), two.kids, &kept, steps)
}

// Each form has a function of its own: a call clears room for all that its function may need, which for all forms in
// one would be more than the planting itself.
#[cycle(planting)]
fn plant_part<L: Ledger>(
    alloc: Global,
    nodes: &mut Nodes<Node>,
    term: Term,
    clock: u128,
    steps: &mut Steps<L>,
) -> Result<PlantedPart, AllocError>
    ensures { IfOk result (λ part. PartRule (find nodes.old) (find nodes.new) clock
        (term_view term) part.key part.kept steps.old steps.new) }
{
    match term {
        Term::Done => Ok(PlantedPart {
            key: None,
            kept: Kept::done(),
        }),
        Term::Leaf(step) => plant_leaf(nodes, step, steps),
        Term::Wait { left, pos } => plant_wait(nodes, left, pos, clock, steps),
        Term::Seq(part, rest) => plant_sequence(alloc, nodes, part, rest, clock, steps),
        Term::Par(parts) => plant_parallel(alloc, nodes, parts, clock, steps),
        Term::Sel(parts) => plant_select(alloc, nodes, parts, clock, steps),
        Term::Guard { test, pos, body } => {
            plant_guard(alloc, nodes, test, pos, body, clock, steps)
        }
        Term::Frame {
            frame,
            inputs,
            results,
            body,
        } => plant_frame(alloc, nodes, frame, inputs, results, body, clock, steps),
        Term::Abort(first, second) => plant_abort(alloc, nodes, first, second, clock, steps),
        Term::Idle(first, second, again) => {
            plant_idle(alloc, nodes, first, second, again, clock, steps)
        }
        Term::Handling(first, second, again) => {
            plant_handling(alloc, nodes, first, second, again, clock, steps)
        }
    }
}

#[cycle(planting)]
fn plant_boxed<L: Ledger>(
    alloc: Global,
    nodes: &mut Nodes<Node>,
    term: Boxed<Term>,
    clock: u128,
    steps: &mut Steps<L>,
) -> Result<PlantedPart, AllocError>
    ensures { IfOk result (λ part. PartRule (find nodes.old) (find nodes.new) clock
        (term_view term) part.key part.kept steps.old steps.new) }
{
    plant_part(alloc, nodes, term.into_inner(), clock, steps)
}

#[cycle(planting)]
fn plant_two<L: Ledger>(
    alloc: Global,
    nodes: &mut Nodes<Node>,
    first: Boxed<Term>,
    second: Boxed<Term>,
    clock: u128,
    steps: &mut Steps<L>,
) -> Result<PlantedTwo, AllocError>
    ensures { IfOk result (λ two. TwoRule (find nodes.old) (find nodes.new) clock
        (term_view first) (term_view second) two.kids two.first two.second steps.old steps.new) }
{
    let one = plant_boxed(alloc, nodes, first, clock, steps)?;
    let other = plant_boxed(alloc, nodes, second, clock, steps)?;
    Ok(PlantedTwo {
        kids: Kids::two(one.key, other.key),
        first: one.kept,
        second: other.kept,
    })
}

// Parts side by side.
#[cycle(planting)]
fn plant_all<L: Ledger>(
    alloc: Global,
    nodes: &mut Nodes<Node>,
    parts: Items<Term>,
    clock: u128,
    steps: &mut Steps<L>,
) -> Result<PlantedAll, AllocError>
    ensures { IfOk result (λ all. AllRule (find nodes.old) (find nodes.new) clock
        (terms_view parts) all.kids all.kept steps.old steps.new) }
{
    let mut left = parts.into_vec();
    let mut keys = Vec::with_capacity(alloc, left.len())?;
    let mut kept = Kept::none();
    for index in 0..left.len() {
        let part = exchange(&mut left, index, Term::Done);
        let planted = plant_part(alloc, nodes, part, clock, steps)?;
        kept = kept.join(&planted.kept)?;
        keys.push(planted.key)?;
    }
    Ok(PlantedAll {
        kids: Kids::many(keys),
        kept,
    })
}

/// Makes nodes of a term, where the clock shows so much, in clock units, and hands out the key of the
/// topmost; None where the term is done. Nothing else changes. What is kept of a part that is asked nothing
/// is right at once, and of every part whether it is and how high it is. One step for each node, of which
/// there is one for each part that is not done.
///
/// The only error is want of memory, or that there is more to do, or a part higher, than can be counted; then
/// the nodes may only be dropped.
pub fn plant<L: Ledger>(
    alloc: Global,
    nodes: &mut Nodes<Node>,
    term: Term,
    clock: u128,
    steps: &mut Steps<L>,
) -> Result<Option<Key>, AllocError>
    // Each delay that has begun is over at a moment of 128 bits.
    requires { EndsInTime clock (term_view term) }
    ensures planted { IfOk result (λ key. Planted (find nodes.old) (find nodes.new) clock
        (term_view term) key) }
    ensures ticks { OnOk result (steps.new ≡ steps.old + nodes_of (term_view term)) }
{
    let part = plant_part(alloc, nodes, term, clock, steps)?;
    Ok(part.key)
}
