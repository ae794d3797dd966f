//! What has become of a process.

ghost use Rattle.std.specs.Prelude.{◌≡◌, All, IfOk};
ghost use Rattle.pz_rules.specs.Settings.{Process, left_by, Home as RulesHome};
ghost use Rattle.pz_rules.specs.Leaving.{residual, swept};
ghost use Rattle.pz_rules.specs.View.{term_view};
ghost use Rattle.pz_rules.specs.Places.{MayAct};
ghost use Rattle.pz_rules.specs.Becoming.{Became};
ghost use Rattle.pz_term_around.specs.pz_part_opening.Homes.{home_view};
ghost use Rattle.pz_term_residual.specs.devices.Unwound.{unwound, HasItsPlace};

use crate::levels::{Inside, Level, put_around, step_in};
use pz_rules::Term;
use pz_rules::pz_state::{FrameId, State};
use pz_term_around::pz_part_opening::Home;
use pz_term_frames::sweep;
use std::alloc::{AllocError, Global};

/// What is around the part at the place of a term that stands in no frame, from the whole term to the
/// part, which is gone. The only error is want of memory.
fn take_apart(alloc: Global, mut term: Term, place: &[usize]) -> Result<Vec<Level>, AllocError>
    requires { MayAct (term_view term) place.now }
    ensures around { IfOk result (λ levels. (home : RulesHome) (p : Process) →
        unwound home levels.items p ≡ residual home 0 (term_view term) place.now p) }
    ensures places { IfOk result (λ levels. All HasItsPlace levels.items) }
{
    let mut levels = Vec::new(alloc);
    let mut frame = FrameId(0);
    for child in place {
        let inside = step_in(frame, term, *child);
        let Inside {
            level,
            frame: own,
            term: part,
        } = inside;
        levels.push(level)?;
        frame = own;
        term = part;
    }
    Ok(levels)
}

/// Puts the levels round what is left inside, from the last to the first. The only error is want of
/// memory.
fn put_together(
    alloc: Global,
    home: &Home<'_>,
    mut levels: Vec<Level>,
    mut left: Term,
    state: &mut State,
) -> Result<Term, AllocError>
    requires { All HasItsPlace levels.items }
    ensures { IfOk result (λ term. Became (unwound (home_view home.now) levels.items
        (left_by state.old.held (term_view left))) (term_view term) state.old state.new) }
{
    while let Some(level) = levels.pop() {
        left = put_around(alloc, home, level, left, state)?;
    }
    Ok(left)
}

/// The term of a process once its part at the place has become another. Frames that stand no longer
/// leave the state; open marks stay. Time is linear in the term and, but for a logarithm, in the open
/// frames. The only error is want of memory, and of the state nothing is said then.
///
/// A part at the place may act.
pub fn settle(
    alloc: Global,
    home: &Home<'_>,
    term: Term,
    place: &[usize],
    part: Term,
    state: &mut State,
) -> Result<Term, AllocError>
    requires { MayAct (term_view term) place.now }
    ensures left { IfOk result (λ left. Became (swept
        (residual (home_view home.now) 0 (term_view term) place.now
        (left_by state.old.held (term_view part)))) (term_view left) state.old state.new) }
{
    let levels = take_apart(alloc, term, place)?;
    let left = put_together(alloc, home, levels, part, state)?;
    sweep(alloc, &left, state)?;
    Ok(left)
}
