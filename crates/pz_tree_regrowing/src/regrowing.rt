ghost use Rattle.std.specs.Prelude.{◌≡◌, ◌≤◌, ◌+◌, ℕ, IfOk};
ghost use Rattle.pz_nodes.specs.Arena.{find};
ghost use Rattle.pz_classes_code.specs.StepView.{view};
ghost use Rattle.pz_rules.specs.View.{term_view};
ghost use Rattle.pz_tree_nodes.specs.pz_tree_standing.Heads.{idle};
ghost use Rattle.pz_term_around.specs.pz_part_opening.Homes.{home_view};
ghost use Rattle.pz_tree_nodes.specs.Dropping.{numbers};
ghost use Rattle.pz_tree_nodes.specs.View.{head_view};
ghost use Rattle.pz_tree_nodes.specs.Planting.{EndsInTime};
ghost use Rattle.pz_tree_regrowing.specs.Regrowing.{at_work, RegrowRule};
ghost use Rattle.pz_tree_regrowing.specs.devices.Levels.{FinishRule};
ghost use Rattle.pz_tree_regrowing.specs.devices.Rounds.{ClearRule, ReplantRule, BareRegrowRule};

use crate::clocks::behind_now;
use crate::forms::{
    finish_abort, finish_first, finish_parallel, finish_second, finish_sequence, leave_alone,
};
use crate::frames::{Call, finish_frame};
use crate::nodes::{Taken, child_of, kid_in, take};
use crate::shifts::{put_shift, shift_at};
use pz_classes_code::Step;
use pz_classes_code::pz_items::Shared;
use pz_clock::Shift;
use pz_nodes::{Key, Nodes, Steps};
use pz_nodes_shapes::{Kids, drop_part};
use pz_rules::Term;
use pz_rules::pz_state::{FrameId, State};
use pz_term_around::pz_part_opening::Home;
use pz_tree_nodes::{Head, Node, Spot, plant};
use std::alloc::{AllocError, Global};
use std::sync::ledger::Ledger;

// An interrupt, one of whose parts has acted.
fn finish_idle<L: Ledger>(
    alloc: Global,
    home: &Home<'_>,
    nodes: &mut Nodes<Node>,
    key: Key,
    clock: u128,
    number: usize,
    again: Shared<Step>,
    shift: Shift,
    kids: Kids,
    state: &mut State,
    lost: &mut Vec<FrameId>,
    gained: &mut Vec<u64>,
    steps: &mut Steps<L>,
) -> Result<Option<Key>, AllocError>
    ensures { IfOk result (λ out. (f : ℕ) → FinishRule (home_view home.now) f clock key
        (idle (view again) shift) kids number out
        (at_work (find nodes.old) state.old (numbers lost.old.items) gained.old.items steps.old)
        (at_work (find nodes.new) state.new (numbers lost.new.items) gained.new.items steps.new)) }
{
    if number == 0 {
        return finish_first(nodes, key, again, shift, kids, lost, steps);
    }
    finish_second(
        alloc, home, nodes, key, clock, again, shift, kids, state, gained, steps,
    )
}

// A node in hand, of which the child of this number has become another.
fn finish<L: Ledger>(
    alloc: Global,
    home: &Home<'_>,
    nodes: &mut Nodes<Node>,
    spot: Spot,
    key: Key,
    number: usize,
    taken: Taken,
    state: &mut State,
    lost: &mut Vec<FrameId>,
    gained: &mut Vec<u64>,
    steps: &mut Steps<L>,
) -> Result<Option<Key>, AllocError>
    ensures { IfOk result (λ out. FinishRule (home_view home.now) spot.frame.0 spot.clock key
        (head_view taken.head) taken.kids number out
        (at_work (find nodes.old) state.old (numbers lost.old.items) gained.old.items steps.old)
        (at_work (find nodes.new) state.new (numbers lost.new.items) gained.new.items steps.new)) }
{
    let clock = spot.clock;
    let Taken { head, kids } = taken;
    let first = kid_in(&kids, 0);
    match head {
        // Nothing acts below these.
        Head::Leaf(_) | Head::Wait { .. } | Head::Shifted(_) => Ok(None),
        Head::Seq(rest) => finish_sequence(
            alloc, home, nodes, key, clock, rest, first, state, gained, steps,
        ),
        Head::Par => finish_parallel(nodes, key, kids, steps),
        Head::Sel => leave_alone(nodes, key, kids, number, lost, steps),
        Head::Guard { shift, .. } => {
            let behind = behind_now(&shift, clock);
            Ok(put_shift(nodes, key, behind, clock, first, steps))
        }
        Head::Frame {
            frame,
            inputs,
            results,
        } => {
            let call = Call {
                own: frame,
                inputs,
                results,
            };
            finish_frame(
                alloc, nodes, key, spot.frame, call, first, state, lost, steps,
            )
        }
        Head::Abort => finish_abort(nodes, key, kids, number, lost, steps),
        Head::Idle(again, shift) => finish_idle(
            alloc, home, nodes, key, clock, number, again, shift, kids, state, lost, gained, steps,
        ),
        Head::Handling(again, shift) => finish_second(
            alloc, home, nodes, key, clock, again, shift, kids, state, gained, steps,
        ),
    }
}

// Whatever stands under the key is dropped.
fn clear<L: Ledger>(nodes: &mut Nodes<Node>, key: Option<Key>, steps: &mut Steps<L>)
    ensures { ClearRule (find nodes.old) (find nodes.new) key steps.old steps.new }
{
    match key {
        None => {}
        Some(key) => drop_part(nodes, key, steps),
    }
}

// The part itself is dropped, and what it became is planted.
fn replant<L: Ledger>(
    alloc: Global,
    nodes: &mut Nodes<Node>,
    spot: Spot,
    part: Term,
    steps: &mut Steps<L>,
) -> Result<Option<Key>, AllocError>
    requires { EndsInTime spot.clock (term_view part) }
    ensures { IfOk result (λ out. ReplantRule (find nodes.old) (find nodes.new) spot.key spot.clock
        (term_view part) out steps.old steps.new) }
{
    clear(nodes, spot.key, steps);
    plant(alloc, nodes, part, spot.clock, steps)
}

// Where no shift node stands on top.
#[cycle(regrowing)]
fn regrow_bare<L: Ledger>(
    alloc: Global,
    home: &Home<'_>,
    nodes: &mut Nodes<Node>,
    spot: Spot,
    place: &[usize],
    part: Term,
    state: &mut State,
    lost: &mut Vec<FrameId>,
    gained: &mut Vec<u64>,
    steps: &mut Steps<L>,
) -> Result<Option<Key>, AllocError>
    requires { EndsInTime spot.clock (term_view part) }
    ensures { IfOk result (λ out. BareRegrowRule (home_view home.now) spot.key
        spot.frame.0 spot.clock
        place.now (term_view part) out
        (at_work (find nodes.old) state.old (numbers lost.old.items) gained.old.items steps.old)
        (at_work (find nodes.new) state.new (numbers lost.new.items) gained.new.items steps.new)) }
{
    let Some((number, rest)) = place.split_first() else {
        return replant(alloc, nodes, spot, part, steps);
    };
    // Nothing acts in what is done.
    let Some(key) = spot.key else {
        return Ok(None);
    };
    let child = child_of(nodes, spot, *number, steps);
    let left = regrow_part(
        alloc, home, nodes, child, rest, part, state, lost, gained, steps,
    )?;
    let Some(taken) = take(nodes, key, *number, left, steps) else {
        return Ok(None);
    };
    finish(
        alloc, home, nodes, spot, key, *number, taken, state, lost, gained, steps,
    )
}

#[cycle(regrowing)]
fn regrow_part<L: Ledger>(
    alloc: Global,
    home: &Home<'_>,
    nodes: &mut Nodes<Node>,
    spot: Spot,
    place: &[usize],
    part: Term,
    state: &mut State,
    lost: &mut Vec<FrameId>,
    gained: &mut Vec<u64>,
    steps: &mut Steps<L>,
) -> Result<Option<Key>, AllocError>
    requires { EndsInTime spot.clock (term_view part) }
    ensures { IfOk result (λ out. RegrowRule (home_view home.now) spot.key spot.frame.0 spot.clock
        place.now (term_view part) out
        (at_work (find nodes.old) state.old (numbers lost.old.items) gained.old.items steps.old)
        (at_work (find nodes.new) state.new (numbers lost.new.items) gained.new.items steps.new)) }
{
    let Some(key) = spot.key else {
        return regrow_bare(
            alloc, home, nodes, spot, place, part, state, lost, gained, steps,
        );
    };
    let Some(shift) = shift_at(nodes, key, spot.clock, steps) else {
        return regrow_bare(
            alloc, home, nodes, spot, place, part, state, lost, gained, steps,
        );
    };
    let inner = Spot {
        key: shift.below,
        frame: spot.frame,
        clock: spot.clock.saturating_sub(shift.by),
    };
    let left = regrow_bare(
        alloc, home, nodes, inner, place, part, state, lost, gained, steps,
    )?;
    Ok(put_shift(nodes, key, shift.by, spot.clock, left, steps))
}

/// The part at a place of the term that stands at `root` becomes another. Hands out the key of what stands
/// for what that leaves, None where nothing is left: the term around the part changes level by level, and so
/// does the state, where a frame ends or statements open. The frames that stand no longer come behind those
/// in `lost`, and are still open in the state; those that stand in what opens come behind those in `gained`.
///
/// Each node on the way to the part keeps what is made of what its children keep, so what is asked nothing
/// is right at once. Nothing else is touched: at most eleven steps for each part on the way and each that
/// stands beside one of them in a `par`, one for each that is made, two for each that is dropped.
///
/// Takes as much of the stack as the part is deep. The only error is want of memory, or that there is more
/// to do, or a term higher, than can be counted; then the nodes may only be dropped, and of the state
/// nothing is said.
pub fn regrow<L: Ledger>(
    alloc: Global,
    home: &Home<'_>,
    nodes: &mut Nodes<Node>,
    root: Spot,
    place: &[usize],
    part: Term,
    state: &mut State,
    lost: &mut Vec<FrameId>,
    gained: &mut Vec<u64>,
    steps: &mut Steps<L>,
) -> Result<Option<Key>, AllocError>
    // Each delay of the part that has begun is over at a moment of 128 bits.
    requires { EndsInTime root.clock (term_view part) }
    ensures regrown { IfOk result (λ out. RegrowRule (home_view home.now) root.key
        root.frame.0 root.clock
        place.now (term_view part) out
        (at_work (find nodes.old) state.old (numbers lost.old.items) gained.old.items steps.old)
        (at_work (find nodes.new) state.new (numbers lost.new.items) gained.new.items steps.new)) }
{
    regrow_part(
        alloc, home, nodes, root, place, part, state, lost, gained, steps,
    )
}
