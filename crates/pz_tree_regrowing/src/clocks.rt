// Local clocks that run from now on or stand still. Nothing has to be known of them: where one does not fit
// the clock around it, no more is said.

ghost use Rattle.std.specs.Prelude.{◌≡◌, ◌≤◌, None};
ghost use Rattle.pz_clock.specs.Shifts.{local, behind_since, frozen, thawed, ShiftFits};
ghost use Rattle.pz_tree_nodes.specs.pz_tree_standing.Heads.{first_only, inner_clock};
ghost use Rattle.pz_tree_nodes.specs.pz_tree_standing.Standing.{HeadFits};
ghost use Rattle.pz_tree_nodes.specs.View.{head_view};

use pz_clock::Shift;
use pz_tree_nodes::Head;

/// How many clock units it is behind, if it runs from now on, where the clock around it shows `outer`.
pub(crate) fn behind_now(shift: &Shift, outer: u128) -> u128
    ensures { ShiftFits shift.now outer → result ≡
        behind_since shift.now.behind shift.now.since outer }
{
    match shift.since() {
        None => shift.behind(),
        Some(since) => shift.behind().saturating_add(outer.saturating_sub(since)),
    }
}

/// A clock that runs and is behind by so many clock units.
pub(crate) fn running(behind: u128) -> Shift
    ensures { result ≡ record { behind = behind; since = None } }
{
    Shift::new().freeze(0).thaw(behind)
}

/// It runs from now on.
pub(crate) fn thaw(shift: &Shift, outer: u128) -> Shift
    ensures { ShiftFits shift.now outer → result ≡ thawed shift.now outer }
{
    running(behind_now(shift, outer))
}

/// It stands still from now on, if it did not before.
pub(crate) fn freeze(shift: &Shift, outer: u128) -> Shift
    ensures { ShiftFits shift.now outer → result ≡ frozen shift.now outer }
{
    if shift.since().is_none() && shift.behind() <= outer {
        shift.freeze(outer)
    } else {
        *shift
    }
}

// What it shows, where the clock around it shows `outer`: no more than that.
fn shown(shift: &Shift, outer: u128) -> u128
    ensures clock { ShiftFits shift.now outer → result ≡ local shift.now outer }
    ensures within { result ≤ outer }
{
    outer.saturating_sub(behind_now(shift, outer))
}

// Of the first part alone.
fn shown_first(shift: &Shift, number: usize, outer: u128) -> u128
    ensures clock { ShiftFits shift.now outer → result ≡ first_only shift.now number outer }
    ensures within { result ≤ outer }
{
    if number == 0 {
        shown(shift, outer)
    } else {
        outer
    }
}

/// What the clock of the child of this number shows, where that of the node shows `outer`: no more.
pub(crate) fn clock_below(head: &Head, number: usize, outer: u128) -> u128
    ensures clock { HeadFits (head_view head.now) outer → result ≡ inner_clock (head_view head.now)
        number outer }
    ensures within { result ≤ outer }
{
    match head {
        Head::Guard { shift, .. } => shown(shift, outer),
        Head::Shifted(shift) => shown(shift, outer),
        Head::Idle(_, shift) => shown_first(shift, number, outer),
        Head::Handling(_, shift) => shown_first(shift, number, outer),
        _ => outer,
    }
}
