// Where the children of a node stand, and which of them are active.

ghost use Rattle.std.specs.Prelude.{◌≡◌};
ghost use Rattle.pz_clock.specs.Shifts.{local};
ghost use Rattle.pz_tree_standing.specs.Heads.{first_only, inner_clock, inner_frame};
ghost use Rattle.pz_tree_standing.specs.Reached as reached;
ghost use Rattle.pz_tree_nodes.specs.View.{head_view};

use crate::Head;
use pz_clock::Shift;
use pz_rules::pz_state::FrameId;

fn is_first(number: usize) -> bool
    ensures { result ≡ reached.is_first number }
{
    number == 0
}

fn is_second(number: usize) -> bool
    ensures { result ≡ reached.is_second number }
{
    number == 1
}

/// Whether the child of this number is active where the node is.
pub fn reaches(head: &Head, number: usize) -> bool
    ensures { result ≡ reached.reaches (head_view head.now) number }
{
    match head {
        Head::Leaf(_) => false,
        Head::Wait { .. } => false,
        Head::Seq(_) => is_first(number),
        Head::Par => true,
        Head::Sel => true,
        Head::Guard { shift, .. } => is_first(number) && shift.since().is_none(),
        Head::Frame { .. } => is_first(number),
        Head::Abort => is_first(number) || is_second(number),
        Head::Idle(..) => is_first(number) || is_second(number),
        Head::Handling(..) => is_second(number),
        Head::Shifted(_) => is_first(number),
    }
}

// What a clock shows, of any shift: no condition has to be known of the nodes.
pub(crate) fn local_clock(shift: &Shift, outer: u128) -> u128
    ensures { result ≡ local shift.now outer }
{
    match shift.since() {
        None => outer.saturating_sub(shift.behind()),
        Some(since) => since.saturating_sub(shift.behind()),
    }
}

// Of the first part alone.
fn first_clock(shift: &Shift, number: usize, clock: u128) -> u128
    ensures { result ≡ first_only shift.now number clock }
{
    if number == 0 {
        local_clock(shift, clock)
    } else {
        clock
    }
}

/// What the clock of this child shows.
pub fn clock_inside(head: &Head, number: usize, clock: u128) -> u128
    ensures { result ≡ inner_clock (head_view head.now) number clock }
{
    match head {
        Head::Guard { shift, .. } => local_clock(shift, clock),
        Head::Shifted(shift) => local_clock(shift, clock),
        Head::Idle(_, shift) => first_clock(shift, number, clock),
        Head::Handling(_, shift) => first_clock(shift, number, clock),
        _ => clock,
    }
}

/// By how much the clock of this child is behind that of the node, where it is active.
pub fn behind_inside(head: &Head, number: usize) -> u128
    ensures { result ≡ reached.behind_inside (head_view head.now) number }
{
    match head {
        Head::Guard { shift, .. } => shift.behind(),
        Head::Shifted(shift) => shift.behind(),
        Head::Idle(_, shift) => { if number == 0 { shift.behind() } else { 0 } }
        _ => 0,
    }
}

/// The frame in which the children stand.
pub fn frame_inside(head: &Head, frame: FrameId) -> FrameId
    ensures { result.0 ≡ inner_frame (head_view head.now) frame.0 }
{
    match head {
        Head::Frame { frame: own, .. } => *own,
        _ => frame,
    }
}
