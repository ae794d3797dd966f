// What becomes of a node in hand, one of whose children has become another, form by form. The only error is
// want of memory, or that there is more to do than can be counted.

ghost use Rattle.std.specs.Prelude.{◌≡◌, ◌≤◌, ◌+◌, ◌∷◌, [], ℕ, Some, None, IfOk};
ghost use Rattle.pz_nodes.specs.Arena.{find};
ghost use Rattle.pz_classes_code.specs.StepView.{view, sequence_view};
ghost use Rattle.pz_term_around.specs.pz_part_opening.Homes.{home_view};
ghost use Rattle.pz_tree_nodes.specs.Dropping.{numbers};
ghost use Rattle.pz_tree_nodes.specs.pz_tree_standing.Heads as heads;
ghost use Rattle.pz_tree_regrowing.specs.Regrowing.{at_work};
ghost use Rattle.pz_tree_regrowing.specs.devices.Levels.{FinishRule, StillRule, LosingRule, ChangingRule, AloneRule, ResumeRule, SuspendRule, SecondRule, are_gone};

use crate::clocks::{freeze, thaw};
use crate::keeping::{abort_kept, handling_kept, idle_kept, parallel_kept, sequence_kept};
use crate::nodes::{kept_of, kept_of_all, kid_in, release, write};
use crate::opening::plant_opened;
use pz_classes_code::Step;
use pz_classes_code::pz_items::Shared;
use pz_clock::Shift;
use pz_nodes::{Key, Nodes, Steps};
use pz_nodes_shapes::Kids;
use pz_rules::Rest;
use pz_rules::pz_state::{FrameId, State};
use pz_term_around::pz_part_opening::{Home, open_rest, open_step};
use pz_tree_nodes::{Head, Node, drop_parts};
use std::alloc::{AllocError, Global};
use std::sync::ledger::Ledger;

/// What is open, and the statements behind it; once it is done, these stand open.
pub(crate) fn finish_sequence<L: Ledger>(
    alloc: Global,
    home: &Home<'_>,
    nodes: &mut Nodes<Node>,
    key: Key,
    clock: u128,
    rest: Rest,
    left: Option<Key>,
    state: &mut State,
    gained: &mut Vec<u64>,
    steps: &mut Steps<L>,
) -> Result<Option<Key>, AllocError>
    ensures { IfOk result (λ out. (i : ℕ) → ChangingRule (home_view home.now) clock key
        (heads.sequence (sequence_view rest)) (left ∷ []) i out (find nodes.old) (find nodes.new)
        state.old state.new gained.old.items gained.new.items steps.old steps.new) }
{
    if left.is_none() {
        release(nodes, key, steps);
        let term = open_rest(alloc, home, rest, state)?;
        return plant_opened(alloc, nodes, term, clock, gained, steps);
    }
    let part = kept_of(nodes, left, steps);
    let kept = sequence_kept(&part)?;
    write(nodes, key, Head::Seq(rest), Kids::one(left), kept, steps);
    Ok(Some(key))
}

/// Whether all of these are gone.
fn all_gone(keys: &[Option<Key>]) -> bool
    ensures { result ≡ are_gone keys.now }
{
    for key in keys {
        if key.is_some() {
            return false;
        }
    }
    true
}

/// Parts side by side, which are done once all of them are.
pub(crate) fn finish_parallel<L: Ledger>(
    nodes: &mut Nodes<Node>,
    key: Key,
    kids: Kids,
    steps: &mut Steps<L>,
) -> Result<Option<Key>, AllocError>
    ensures { IfOk result (λ out. (c i : ℕ) → StillRule c key heads.parallel kids i out
        (find nodes.old) (find nodes.new) steps.old steps.new) }
{
    if all_gone(kids.as_slice()) {
        release(nodes, key, steps);
        return Ok(None);
    }
    let parts = kept_of_all(nodes, kids.as_slice(), steps)?;
    let kept = parallel_kept(&parts)?;
    write(nodes, key, Head::Par, kids, kept, steps);
    Ok(Some(key))
}

/// What has acted stands in the place of the whole, or nothing if it is done; the others are dropped.
pub(crate) fn leave_alone<L: Ledger>(
    nodes: &mut Nodes<Node>,
    key: Key,
    mut kids: Kids,
    number: usize,
    lost: &mut Vec<FrameId>,
    steps: &mut Steps<L>,
) -> Result<Option<Key>, AllocError>
    ensures { IfOk result (λ out. AloneRule (find nodes.old) (find nodes.new) key kids number out
        (numbers lost.old.items) (numbers lost.new.items) steps.old steps.new) }
{
    let left = kid_in(&kids, number);
    if number < kids.as_slice().len() {
        kids.put(number, None);
    }
    drop_parts(nodes, kids.as_slice(), lost, steps)?;
    release(nodes, key, steps);
    Ok(left)
}

/// The first part, until the second acts; when the first is done, the whole is.
pub(crate) fn finish_abort<L: Ledger>(
    nodes: &mut Nodes<Node>,
    key: Key,
    kids: Kids,
    number: usize,
    lost: &mut Vec<FrameId>,
    steps: &mut Steps<L>,
) -> Result<Option<Key>, AllocError>
    ensures { IfOk result (λ out. (c : ℕ) → LosingRule c key heads.abort kids number out
        (find nodes.old) (find nodes.new) (numbers lost.old.items)
        (numbers lost.new.items) steps.old
        steps.new) }
{
    if number != 0 {
        return leave_alone(nodes, key, kids, number, lost, steps);
    }
    let left = kid_in(&kids, 0);
    if left.is_none() {
        return leave_alone(nodes, key, kids, 0, lost, steps);
    }
    let first = kept_of(nodes, left, steps);
    let second = kept_of(nodes, kid_in(&kids, 1), steps);
    let kept = abort_kept(&first, &second)?;
    write(nodes, key, Head::Abort, kids, kept, steps);
    Ok(Some(key))
}

/// The first part of an interrupt has acted, until the second acts; when it is done, the whole is.
pub(crate) fn finish_first<L: Ledger>(
    nodes: &mut Nodes<Node>,
    key: Key,
    again: Shared<Step>,
    shift: Shift,
    kids: Kids,
    lost: &mut Vec<FrameId>,
    steps: &mut Steps<L>,
) -> Result<Option<Key>, AllocError>
    ensures { IfOk result (λ out. (c : ℕ) → LosingRule c key
        (heads.idle (view again) shift) kids 0 out
        (find nodes.old) (find nodes.new) (numbers lost.old.items)
        (numbers lost.new.items) steps.old
        steps.new) }
{
    let left = kid_in(&kids, 0);
    if left.is_none() {
        return leave_alone(nodes, key, kids, 0, lost, steps);
    }
    let first = kept_of(nodes, left, steps);
    let second = kept_of(nodes, kid_in(&kids, 1), steps);
    let kept = idle_kept(shift.behind(), &first, &second)?;
    write(nodes, key, Head::Idle(again, shift), kids, kept, steps);
    Ok(Some(key))
}

// The first part goes on, and the second stands open afresh.
fn resume<L: Ledger>(
    alloc: Global,
    home: &Home<'_>,
    nodes: &mut Nodes<Node>,
    key: Key,
    clock: u128,
    again: Shared<Step>,
    shift: Shift,
    first: Option<Key>,
    state: &mut State,
    gained: &mut Vec<u64>,
    steps: &mut Steps<L>,
) -> Result<Option<Key>, AllocError>
    ensures { IfOk result (λ out. ResumeRule (home_view home.now) clock key (view again)
        shift first out
        (find nodes.old) (find nodes.new) state.old state.new gained.old.items
        gained.new.items steps.old
        steps.new) }
{
    let term = open_step(alloc, home, again.get(), state)?;
    let second = plant_opened(alloc, nodes, term, clock, gained, steps)?;
    let shift = thaw(&shift, clock);
    let first_kept = kept_of(nodes, first, steps);
    let second_kept = kept_of(nodes, second, steps);
    let kept = idle_kept(shift.behind(), &first_kept, &second_kept)?;
    let kids = Kids::two(first, second);
    write(nodes, key, Head::Idle(again, shift), kids, kept, steps);
    Ok(Some(key))
}

// The second part goes on, and the first stands still.
fn suspend<L: Ledger>(
    nodes: &mut Nodes<Node>,
    key: Key,
    clock: u128,
    again: Shared<Step>,
    shift: Shift,
    kids: Kids,
    steps: &mut Steps<L>,
) -> Result<Option<Key>, AllocError>
    ensures { IfOk result (λ out. SuspendRule clock key (view again) shift kids out (find nodes.old)
        (find nodes.new) steps.old steps.new) }
{
    let first = kept_of(nodes, kid_in(&kids, 0), steps);
    let second = kept_of(nodes, kid_in(&kids, 1), steps);
    let kept = handling_kept(&first, &second)?;
    let head = Head::Handling(again, freeze(&shift, clock));
    write(nodes, key, head, kids, kept, steps);
    Ok(Some(key))
}

/// The second part of an interrupt has acted: the first stands still until that is done, and then the second
/// stands open afresh.
pub(crate) fn finish_second<L: Ledger>(
    alloc: Global,
    home: &Home<'_>,
    nodes: &mut Nodes<Node>,
    key: Key,
    clock: u128,
    again: Shared<Step>,
    shift: Shift,
    kids: Kids,
    state: &mut State,
    gained: &mut Vec<u64>,
    steps: &mut Steps<L>,
) -> Result<Option<Key>, AllocError>
    ensures { IfOk result (λ out. SecondRule (home_view home.now) clock key (view again)
        shift kids out
        (find nodes.old) (find nodes.new) state.old state.new gained.old.items
        gained.new.items steps.old
        steps.new) }
{
    if kid_in(&kids, 1).is_none() {
        let first = kid_in(&kids, 0);
        return resume(
            alloc, home, nodes, key, clock, again, shift, first, state, gained, steps,
        );
    }
    suspend(nodes, key, clock, again, shift, kids, steps)
}
