// What is around an acting part, on one level. The only error is want of memory.

ghost use Rattle.std.specs.Prelude.{◌≡◌, ◌<◌, length, Some, slice_get, slice_set, IfOk};
ghost use Rattle.pz_classes_code.specs.StepView.{view};
ghost use Rattle.pz_rules.specs.Terms as terms;
ghost use Rattle.pz_rules.specs.Leaving.{joined, replaced};
ghost use Rattle.pz_rules.specs.View.{term_view, terms_view};
ghost use Rattle.pz_rules.specs.Places.{MayActIn};
ghost use Rattle.pz_rules.specs.Becoming.{Became};
ghost use Rattle.pz_rules.specs.Settings.{left_by};
ghost use Rattle.pz_term_around.specs.pz_part_opening.Homes.{home_view};
ghost use Rattle.pz_term_residual.specs.devices.Unwound.{put_round, HasItsPlace, IsInside};

use pz_classes_code::pz_items::{Boxed, Items, Shared};
use pz_classes_code::{Slot, Step};
use pz_rules::pz_state::{FrameId, State};
use pz_rules::{Rest, Term};
use pz_term_around::pz_part_opening::Home;
use pz_term_around::{in_abort, in_frame, in_handling, in_interrupt, in_parallel, in_sequence};
use std::alloc::{AllocError, Global};
use std::mem;

/// What is around a part that acts, on one level.
#[derive(Drop)]
pub(crate) enum Level {
    /// Nothing of it stays once the part has acted.
    Gone,
    /// The statements behind it.
    Sequence(Rest),
    /// All parts, of which the one of this number acts; in its place stands another.
    Parallel {
        parts: Items<Term>,
        acting: usize,
    },
    /// A frame, and the frame around it.
    Frame {
        outer: FrameId,
        frame: FrameId,
        inputs: usize,
        results: Shared<Items<Slot>>,
    },
    /// The second part, which ends the first.
    Abort(Boxed<Term>),
    /// The second part, which interrupts the first, and the statement that it begins with again.
    Idle(Boxed<Term>, Shared<Step>),
    /// What is interrupted, and the statement that the second part begins with again.
    Handling(Boxed<Term>, Shared<Step>),
}

/// A term that was taken apart: what was around its child, the frame in which that stands, and the
/// child itself.
pub(crate) struct Inside {
    pub(crate) level: Level,
    pub(crate) frame: FrameId,
    pub(crate) term: Term,
}

/// Puts another part in the place of one, which it hands out.
fn exchange(parts: &mut Vec<Term>, place: usize, part: Term) -> Term
    requires { place < length parts.old.items }
    ensures old { slice_get parts.old.items place ≡ Some result }
    ensures new { parts.new.items ≡ slice_set parts.old.items place part }
{
    mem::replace(&mut parts[place], part)
}

// Into one of parts side by side.
fn into_parallel(frame: FrameId, parts: Items<Term>, child: usize) -> Inside
    requires { child < length parts }
    ensures { IsInside frame.0 (terms.parallel (terms_view parts)) child result }
{
    let mut parts = parts.into_vec();
    let term = exchange(&mut parts, child, Term::Done);
    let level = Level::Parallel {
        parts: Items::from_vec(parts),
        acting: child,
    };
    Inside { level, frame, term }
}

// Into one of alternatives; the others are gone.
fn into_select(frame: FrameId, parts: Items<Term>, child: usize) -> Inside
    requires { child < length parts }
    ensures { IsInside frame.0 (terms.select (terms_view parts)) child result }
{
    let mut parts = parts.into_vec();
    let term = exchange(&mut parts, child, Term::Done);
    Inside {
        level: Level::Gone,
        frame,
        term,
    }
}

// An action of the second part ends the first for good.
fn into_abort(frame: FrameId, first: Boxed<Term>, second: Boxed<Term>, child: usize) -> Inside
    requires { child < 2 }
    ensures { IsInside frame.0 (terms.abort (term_view first) (term_view second)) child result }
{
    if child == 0 {
        return Inside {
            level: Level::Abort(second),
            frame,
            term: first.into_inner(),
        };
    }
    Inside {
        level: Level::Gone,
        frame,
        term: second.into_inner(),
    }
}

// An action of the second part interrupts the first.
fn into_idle(
    frame: FrameId,
    first: Boxed<Term>,
    second: Boxed<Term>,
    again: Shared<Step>,
    child: usize,
) -> Inside
    requires { child < 2 }
    ensures { IsInside frame.0 (terms.idle (term_view first) (term_view second) (view again)) child
        result }
{
    if child == 0 {
        return Inside {
            level: Level::Idle(second, again),
            frame,
            term: first.into_inner(),
        };
    }
    Inside {
        level: Level::Handling(first, again),
        frame,
        term: second.into_inner(),
    }
}

/// Takes a term apart that stands in this frame. Takes no memory.
///
/// The child of this number may act.
pub(crate) fn step_in(frame: FrameId, term: Term, child: usize) -> Inside
    requires { MayActIn (term_view term) child }
    ensures { IsInside frame.0 (term_view term) child result }
{
    match term {
        Term::Done => unreachable!(),
        Term::Leaf(_) => unreachable!(),
        Term::Wait { .. } => unreachable!(),
        Term::Seq(first, rest) => Inside {
            level: Level::Sequence(rest),
            frame,
            term: first.into_inner(),
        },
        Term::Par(parts) => into_parallel(frame, parts, child),
        Term::Sel(parts) => into_select(frame, parts, child),
        Term::Guard { body, .. } => Inside {
            level: Level::Gone,
            frame,
            term: body.into_inner(),
        },
        Term::Frame {
            frame: own,
            inputs,
            results,
            body,
        } => Inside {
            level: Level::Frame {
                outer: frame,
                frame: own,
                inputs,
                results,
            },
            frame: own,
            term: body.into_inner(),
        },
        Term::Abort(first, second) => into_abort(frame, first, second, child),
        Term::Idle(first, second, again) => into_idle(frame, first, second, again, child),
        Term::Handling(first, second, again) => Inside {
            level: Level::Handling(first, again),
            frame,
            term: second.into_inner(),
        },
    }
}

// Round one of parts side by side.
fn round_parallel(parts: Items<Term>, acting: usize, left: Term) -> Term
    requires { acting < length parts }
    ensures { term_view result ≡ joined (replaced (terms_view parts) acting (term_view left)) }
{
    let mut parts = parts.into_vec();
    drop(exchange(&mut parts, acting, left));
    in_parallel(Items::from_vec(parts))
}

/// Puts a level round what is left inside.
pub(crate) fn put_around(
    alloc: Global,
    home: &Home<'_>,
    level: Level,
    left: Term,
    state: &mut State,
) -> Result<Term, AllocError>
    requires { HasItsPlace level }
    ensures { IfOk result (λ term. Became (put_round (home_view home.now) level
        (left_by state.old.held (term_view left))) (term_view term) state.old state.new) }
{
    match level {
        Level::Gone => Ok(left),
        Level::Sequence(rest) => in_sequence(alloc, home, left, rest, state),
        Level::Parallel { parts, acting } => Ok(round_parallel(parts, acting, left)),
        Level::Frame {
            outer,
            frame,
            inputs,
            results,
        } => in_frame(alloc, outer, frame, inputs, results, left, state),
        Level::Abort(second) => in_abort(alloc, left, second),
        Level::Idle(second, again) => in_interrupt(alloc, left, second, again),
        Level::Handling(first, again) => in_handling(alloc, home, first, left, again, state),
    }
}
