// What is asked of statements before they open. Nothing is built, and no memory is taken.

ghost use Rattle.std.specs.Prelude.{◌≡◌, ◌<◌, ◌≤◌, ◌-◌, ℕ, suc, max, min};
ghost use Rattle.pz_classes_code.specs.StepView.{view, sequence_view};
ghost use Rattle.pz_rules.specs.pz_state.States.{StateView};
ghost use Rattle.pz_rules.specs.Terms.{height, greatest_height};
ghost use Rattle.pz_rules.specs.Settings as rules;
ghost use Rattle.pz_rules.specs.Leaving.{is_done};
ghost use Rattle.pz_rules.specs.Opening.{opened, opened_all};
ghost use Rattle.pz_rules.specs.View.{branches_view};
ghost use Rattle.pz_rules.specs.devices.Outlines.{outlined, outlined_all, outlined_each};
ghost use Rattle.pz_rules.specs.devices.Weights.{weight_all};
ghost use Rattle.pz_part_opening.specs.Bare.{is_bare};
ghost use Rattle.pz_part_opening.specs.Homes.{home_view};
ghost use Rattle.pz_part_opening.specs.devices.Spots.{spot_view, Stands, StepStands};
ghost use Rattle.pz_part_opening.specs.devices.Rounds.{round_outline};

use crate::home::Home;
use crate::spot::{Spot, way_in};
use pz_classes_code::pz_items::{Items, Shared};
use pz_classes_code::{Step, StepForm};

/// What stands inside in the end, and whether a frame stands round it.
#[derive(Clone, Copy)]
struct Innermost<'s> {
    framed: bool,
    spot: Spot<'s>,
}

/// What stands inside in the end: no bracket and no plain call that opens is all that stands there. A frame
/// that is all of a frame stands in its place, so one is left of those on the way.
fn go_inside<'s>(home: &Home<'s>, spot: Spot<'s>) -> Innermost<'s>
    ensures opened { outlined_all (home_view home.now) (spot_view spot.entry) ≡
        round_outline result.framed (outlined_all (home_view home.now) (spot_view result.spot)) }
    ensures lighter { weight_all (home_view home.now) (spot_view result.spot) ≤
        weight_all (home_view home.now) (spot_view spot.entry) }
    ensures stands { Stands (home_view home.now) (spot_view result.spot) }
{
    pz_rules::laws::calls_unfold();
    pz_rules::laws::openings_have_outlines();
    let mut inner = Innermost {
        framed: false,
        spot,
    };
    while let Some(way) = way_in(home, inner.spot) {
        inner = Innermost {
            framed: inner.framed || way.locals.is_some(),
            spot: Spot::Several(way.steps),
        };
    }
    inner
}

/// One more than the height of a part, for which there is one less of room.
fn above(part: u64, room: u64) -> u64
    requires { part < room }
    ensures { (n : ℕ) → part ≡ min n (room - 1) → result ≡ min (suc n) room }
{
    part + 1
}

/// The lesser of the height of what stands there and `room`. Calls itself for parts of the term alone, down
/// to `room` of them in one another.
#[cycle(heights)]
fn within(home: &Home<'_>, spot: Spot<'_>, room: u64) -> u64
    ensures { result ≡ min (height (outlined_all (home_view home.now)
        (spot_view spot.entry))) room }
{
    if room == 0 {
        return 0;
    }
    // Lent again, for no longer than the spot.
    let inner = go_inside(&*home, spot);
    if inner.framed {
        above(standing_within(home, inner.spot, room - 1), room)
    } else {
        standing_within(home, inner.spot, room)
    }
}

/// The same where neither a bracket nor a plain call that opens is all that stands there.
#[cycle(heights)]
fn standing_within(home: &Home<'_>, spot: Spot<'_>, room: u64) -> u64
    requires { Stands (home_view home.now) (spot_view spot) }
    ensures { result ≡ min (height (outlined_all (home_view home.now)
        (spot_view spot.entry))) room }
{
    if room == 0 {
        return 0;
    }
    match spot {
        Spot::One(step) => form_within(home, step, room),
        Spot::Several(steps) => match steps.get().as_slice() {
            [] => 1,
            [step] => form_within(home, step, room),
            [step, ..] => above(within(home, Spot::One(step), room - 1), room),
        },
    }
}

/// The same of a statement.
#[cycle(heights)]
fn form_within(home: &Home<'_>, step: &Step, room: u64) -> u64
    requires stands { StepStands (home_view home.now) (view step.now) }
    requires some { 1 ≤ room }
    ensures { result ≡ min (height (outlined (home_view home.now) (view step.now))) room }
{
    match step.form.get() {
        StepForm::Guard(_, guarded) => {
            above(within(home, Spot::One(guarded.get()), room - 1), room)
        }
        StepForm::Par(branches) => {
            above(
                branches_within(home, branches.get().as_slice(), room - 1),
                room,
            )
        }
        StepForm::Sel(branches) => {
            above(
                branches_within(home, branches.get().as_slice(), room - 1),
                room,
            )
        }
        StepForm::Abort(first, second) => {
            above(both_within(home, first, second.get(), room - 1), room)
        }
        StepForm::Interrupt(first, again) => {
            above(both_within(home, first, again.get(), room - 1), room)
        }
        _ => 1,
    }
}

/// The same of the higher of two parts.
#[cycle(heights)]
fn both_within(home: &Home<'_>, first: &Shared<Items<Step>>, second: &Step, room: u64) -> u64
    ensures { result ≡ min (max
        (height (outlined_all (home_view home.now) (sequence_view first.now)))
        (height (outlined (home_view home.now) (view second.now)))) room }
{
    within(home, Spot::Several(first), room).max(within(home, Spot::One(second), room))
}

/// The same of the highest of alternatives; 0 where there is none.
#[cycle(heights)]
fn branches_within(home: &Home<'_>, branches: &[Shared<Items<Step>>], room: u64) -> u64
    ensures { result ≡ min (greatest_height (outlined_each (home_view home.now)
        (branches_view branches.now))) room }
{
    let mut greatest = 0;
    for branch in branches {
        greatest = within(home, Spot::Several(branch), room).max(greatest);
    }
    greatest
}

/// The lesser of the height of what a statement opens as and `room`, in whatever state. Takes no memory,
/// and calls itself for parts of the term alone, down to `room` of them in one another.
pub fn step_within(home: &Home<'_>, step: &Step, room: u64) -> u64
    ensures { (s : StateView) →
        result ≡ min (height (opened (home_view home.now) (view step.now) s).term) room }
{
    pz_rules::laws::openings_have_outlines();
    within(home, Spot::One(step), room)
}

/// The lesser of the height of what statements in a sequence open as and `room`, in whatever state:
/// whether they stay within a height is so known before anything is built. Takes no memory, and calls
/// itself for parts of the term alone, down to `room` of them in one another.
pub fn stays_within(home: &Home<'_>, steps: &[Step], room: u64) -> u64
    ensures { (s : StateView) →
        result ≡ min (height (opened_all (home_view home.now) (sequence_view steps.now) s).term)
        room }
{
    pz_rules::laws::openings_have_outlines();
    if room == 0 {
        return 0;
    }
    match steps {
        [] => 1,
        [step] => within(home, Spot::One(step), room),
        [step, ..] => above(within(home, Spot::One(step), room - 1), room),
    }
}

/// Whether no statement stands there.
fn is_empty(spot: Spot<'_>) -> bool
    ensures { (home : rules.Home) → Stands home (spot_view spot.entry) →
        result ≡ is_done (outlined_all home (spot_view spot.entry)) }
{
    match spot {
        Spot::One(_) => false,
        Spot::Several(steps) => steps.get().is_empty(),
    }
}

/// Whether nothing stands where the statement has opened, in whatever state.
pub fn opens_done(home: &Home<'_>, step: &Step) -> bool
    ensures { (s : StateView) →
        result ≡ is_done (opened (home_view home.now) (view step.now) s).term }
{
    pz_rules::laws::openings_have_outlines();
    let inner = go_inside(home, Spot::One(step));
    !inner.framed && is_empty(inner.spot)
}

/// Whether the statement opens as a frame without outputs, in whatever state.
pub fn opens_bare(home: &Home<'_>, step: &Step) -> bool
    ensures { (s : StateView) →
        result ≡ is_bare (opened (home_view home.now) (view step.now) s).term }
{
    pz_rules::laws::openings_have_outlines();
    go_inside(home, Spot::One(step)).framed
}
