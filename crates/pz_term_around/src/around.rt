// What is around a part that has become another, each on one level. The only error is want of memory.

ghost use Rattle.std.specs.Prelude.{◌≡◌, ℕ, List, IfOk, false};
ghost use Rattle.pz_classes_code.specs.StepView.{view, sequence_view};
ghost use Rattle.pz_rules.specs.Terms as terms;
ghost use Rattle.pz_rules.specs.Settings.{Home as RulesHome};
ghost use Rattle.pz_rules.specs.Framing as framing;
ghost use Rattle.pz_rules.specs.Leaving as leaving;
ghost use Rattle.pz_rules.specs.View.{term_view, terms_view};
ghost use Rattle.pz_rules.specs.Becoming.{Became};
ghost use Rattle.pz_rules.specs.Opening.{opened};
ghost use Rattle.pz_part_opening.specs.Homes.{home_view};

use crate::slots::copy_locals;
use pz_classes_code::pz_items::{Boxed, Items, Shared};
use pz_classes_code::{Slot, Step};
use pz_eval_binding::set_slots;
use pz_part_opening::{Home, all_done, is_bare, is_done, open_rest, open_step};
use pz_rules::pz_state::{FrameId, State};
use pz_rules::{Rest, Term};
use std::alloc::{AllocError, Global};

/// What is open, and the statements behind it; once it is done, these stand open.
pub fn in_sequence(
    alloc: Global,
    home: &Home<'_>,
    left: Term,
    rest: Rest,
    state: &mut State,
) -> Result<Term, AllocError>
    ensures { IfOk result (λ term. (f : ℕ) (first : terms.Term) (i : ℕ) →
        Became (leaving.around (home_view home.now) f state.old.held
        (terms.sequence first (sequence_view rest)) i (term_view left)) (term_view term) state.old
        state.new) }
{
    if is_done(&left) {
        return open_rest(alloc, home, rest, state);
    }
    let left = Boxed::new(alloc, left)?;
    Ok(Term::Seq(left, rest))
}

/// Parts side by side, which are done once all of them are.
pub fn in_parallel(parts: Items<Term>) -> Term
    ensures { term_view result ≡ leaving.joined (terms_view parts) }
{
    if all_done(parts.as_slice()) {
        Term::Done
    } else {
        Term::Par(parts)
    }
}

/// The first part, until the second acts; when the first is done, the whole is.
pub fn in_abort(alloc: Global, left: Term, second: Boxed<Term>) -> Result<Term, AllocError>
    ensures { IfOk result (λ term. term_view term ≡ leaving.aborted (term_view second)
        (term_view left)) }
{
    if is_done(&left) {
        return Ok(Term::Done);
    }
    let left = Boxed::new(alloc, left)?;
    Ok(Term::Abort(left, second))
}

/// The first part, until the second acts; when the first is done, the whole is.
pub fn in_interrupt(
    alloc: Global,
    left: Term,
    second: Boxed<Term>,
    again: Shared<Step>,
) -> Result<Term, AllocError>
    ensures { IfOk result (λ term. term_view term ≡ leaving.interrupted (term_view second)
        (view again) (term_view left)) }
{
    if is_done(&left) {
        return Ok(Term::Done);
    }
    let left = Boxed::new(alloc, left)?;
    Ok(Term::Idle(left, second, again))
}

/// What is interrupted goes on, and the second part stands open afresh.
fn reopened(
    alloc: Global,
    home: &Home<'_>,
    first: Boxed<Term>,
    again: Shared<Step>,
    state: &mut State,
) -> Result<Term, AllocError>
    ensures { IfOk result (λ term. Became (leaving.handled (home_view home.now) state.old.held
        (term_view first) (view again) terms.done) (term_view term) state.old state.new) }
{
    let second = boxed_step(alloc, home, again.get(), state)?;
    Ok(Term::Idle(first, second, again))
}

fn boxed_step(
    alloc: Global,
    home: &Home<'_>,
    step: &Step,
    state: &mut State,
) -> Result<Boxed<Term>, AllocError>
    ensures { IfOk result (λ term. Became
        (opened (home_view home.now) (view step.now) state.old.held) (term_view term) state.old
        state.new) }
{
    let term = open_step(alloc, home, step, state)?;
    Boxed::new(alloc, term)
}

/// What is interrupted, while the second part acts; once that is done, the first goes on, and the
/// second stands open afresh.
pub fn in_handling(
    alloc: Global,
    home: &Home<'_>,
    first: Boxed<Term>,
    left: Term,
    again: Shared<Step>,
    state: &mut State,
) -> Result<Term, AllocError>
    ensures { IfOk result (λ term. Became (leaving.handled (home_view home.now) state.old.held
        (term_view first) (view again) (term_view left)) (term_view term) state.old state.new) }
{
    if is_done(&left) {
        return reopened(alloc, home, first, again, state);
    }
    let left = Boxed::new(alloc, left)?;
    Ok(Term::Handling(first, left, again))
}

/// A frame round what is not done. A frame without outputs that is all of a frame without outputs
/// stands in its place.
pub fn framed(
    alloc: Global,
    frame: FrameId,
    inputs: usize,
    results: Shared<Items<Slot>>,
    left: Term,
) -> Result<Term, AllocError>
    ensures { IfOk result (λ term. term_view term ≡ framing.framed frame.0 inputs results
        (term_view left)) }
{
    if results.get().as_slice().is_empty() && is_bare(&left) {
        return Ok(left);
    }
    let body = Boxed::new(alloc, left)?;
    Ok(Term::Frame {
        frame,
        inputs,
        results,
        body,
    })
}

/// A frame within another; once it is done, its outputs go to the variables around it.
pub fn in_frame(
    alloc: Global,
    outer: FrameId,
    frame: FrameId,
    inputs: usize,
    results: Shared<Items<Slot>>,
    left: Term,
    state: &mut State,
) -> Result<Term, AllocError>
    ensures { IfOk result (λ term. (home : RulesHome) (body : terms.Term) (i : ℕ) →
        Became (leaving.around home outer.0 state.old.held
        (terms.frame frame.0 inputs results body) i (term_view left)) (term_view term) state.old
        state.new) }
{
    if is_done(&left) {
        let outputs = copy_locals(alloc, state, frame, inputs, results.get().len())?;
        set_slots(state, outer, results.get().as_slice(), outputs)?;
        return Ok(Term::Done);
    }
    framed(alloc, frame, inputs, results, left)
}
