//! The passing of time. The state stays as it is, always, and the only error is want of memory.

ghost use Rattle.std.specs.Prelude.{◌≡◌, ◌<◌, ◌-◌, ℕ, length, slice_index_or, slice_set, if◌then◌else◌, IfOk};
ghost use Rattle.pz_classes_code.specs.pz_syntax.Classes.{ModelTree};
ghost use Rattle.pz_classes_code.specs.CodeView as code;
ghost use Rattle.pz_classes_code.specs.StepView.{view};
ghost use Rattle.pz_rules.specs.Terms as terms;
ghost use Rattle.pz_rules.specs.View.{term_view, terms_view};
ghost use Rattle.pz_rules.specs.Delays.{Passes};
ghost use Rattle.pz_rules.specs.devices.Passing.{passed, passed_all, statement_passed, if_open};
ghost use Rattle.pz_rules.specs.devices.Computed.{IsUntroubled};
ghost use Rattle.pz_part_queries.specs.pz_eval.Known.{AreKnown};
ghost use Rattle.pz_part_queries.specs.Standpoints.{Knows, seen_from};
ghost use Rattle.pz_term_time.specs.devices.Begun.{begun_with};

use pz_classes_code::pz_items::{Boxed, Items, Shared};
use pz_classes_code::pz_syntax::Pos;
use pz_classes_code::{Code, Step, StepForm};
use pz_part_queries::{Standpoint, ask_test, ask_time};
use pz_rules::Term;
use pz_rules::pz_offer::Trouble;
use pz_rules::pz_state::{FrameId, State};
use std::alloc::{AllocError, Global};
use std::mem;

/// A delay that has begun, of which so much was left.
fn go_on(left: u128, time: u128, pos: Pos) -> Term
    ensures { term_view result ≡ terms.wait (left - time) pos }
{
    Term::Wait {
        left: left.saturating_sub(time),
        pos,
    }
}

/// What is left of a delay that has not begun, if its time has no trouble; nothing of any other
/// statement.
fn time_left(
    alloc: Global,
    here: &Standpoint<'_>,
    state: &mut State,
    frame: FrameId,
    step: &Step,
) -> Result<Option<u128>, AllocError>
    requires { AreKnown here.now.classes.now }
    ensures left { (m : ModelTree) (class time : ℕ) → Knows m here.now →
        IfOk result (λ left. begun_with time step.now.pos (view step.now) left ≡ statement_passed
        (seen_from m here.now class state.old.held) time frame.0 (view step.now)) }
    ensures state { state.new ≡ state.old }
{
    pz_rules::laws::evaluations_are_computed();
    match step.form.get() {
        StepForm::Delay(lasting) => {
            let left = ask_time(alloc, here, state, frame, step.pos, lasting)?;
            Ok(left.ok())
        }
        _ => Ok(None),
    }
}

/// A statement that has not begun: a delay begins, if its time has no trouble.
fn pass_step(
    alloc: Global,
    here: &Standpoint<'_>,
    state: &mut State,
    frame: FrameId,
    step: Step,
    time: u128,
) -> Result<Term, AllocError>
    requires { AreKnown here.now.classes.now }
    ensures passed { (m : ModelTree) (class : ℕ) → Knows m here.now →
        IfOk result (λ left. term_view left ≡ statement_passed
        (seen_from m here.now class state.old.held) time frame.0 (view step)) }
    ensures state { state.new ≡ state.old }
{
    match time_left(alloc, here, state, frame, &step)? {
        Some(left) => Ok(go_on(left, time, step.pos)),
        None => Ok(Term::Leaf(step)),
    }
}

/// Whether a guard lets its body go on, where its test came to this.
fn is_open(answer: Result<bool, Trouble>) -> bool
    ensures { (x t : terms.Term) → if_open answer x t ≡ (if result then x else t) }
{
    matches!(answer, Ok(true))
}

/// Puts another part in the place of one, which it hands out.
fn exchange(parts: &mut Vec<Term>, place: usize, part: Term) -> Term
    requires { place < length parts.old.items }
    ensures old { result ≡ slice_index_or parts.old.items place result }
    ensures new { parts.new.items ≡ slice_set parts.old.items place part }
{
    mem::replace(&mut parts[place], part)
}

#[cycle(passing)]
fn pass_part(
    alloc: Global,
    here: &Standpoint<'_>,
    state: &mut State,
    frame: FrameId,
    term: Term,
    time: u128,
) -> Result<Term, AllocError>
    requires { AreKnown here.now.classes.now }
    ensures passed { (m : ModelTree) (class : ℕ) → Knows m here.now →
        IfOk result (λ left. term_view left ≡ passed
        (seen_from m here.now class state.old.held) time frame.0 (term_view term)) }
    ensures state { state.new ≡ state.old }
{
    match term {
        Term::Done => Ok(Term::Done),
        Term::Leaf(step) => pass_step(alloc, here, state, frame, step, time),
        Term::Wait { left, pos } => Ok(go_on(left, time, pos)),
        Term::Seq(first, rest) => {
            let first = pass_boxed(alloc, here, state, frame, first, time)?;
            Ok(Term::Seq(first, rest))
        }
        Term::Par(parts) => {
            let parts = pass_all(alloc, here, state, frame, parts, time)?;
            Ok(Term::Par(parts))
        }
        Term::Sel(parts) => {
            let parts = pass_all(alloc, here, state, frame, parts, time)?;
            Ok(Term::Sel(parts))
        }
        Term::Guard { test, pos, body } => {
            pass_guarded(alloc, here, state, frame, test, pos, body, time)
        }
        Term::Frame {
            frame: own,
            inputs,
            results,
            body,
        } => {
            let body = pass_boxed(alloc, here, state, own, body, time)?;
            Ok(Term::Frame {
                frame: own,
                inputs,
                results,
                body,
            })
        }
        Term::Abort(first, second) => {
            let first = pass_boxed(alloc, here, state, frame, first, time)?;
            let second = pass_boxed(alloc, here, state, frame, second, time)?;
            Ok(Term::Abort(first, second))
        }
        Term::Idle(first, second, again) => {
            let first = pass_boxed(alloc, here, state, frame, first, time)?;
            let second = pass_boxed(alloc, here, state, frame, second, time)?;
            Ok(Term::Idle(first, second, again))
        }
        // What is interrupted stands still.
        Term::Handling(first, second, again) => {
            let second = pass_boxed(alloc, here, state, frame, second, time)?;
            Ok(Term::Handling(first, second, again))
        }
    }
}

#[cycle(passing)]
fn pass_boxed(
    alloc: Global,
    here: &Standpoint<'_>,
    state: &mut State,
    frame: FrameId,
    term: Boxed<Term>,
    time: u128,
) -> Result<Boxed<Term>, AllocError>
    requires { AreKnown here.now.classes.now }
    ensures passed { (m : ModelTree) (class : ℕ) → Knows m here.now →
        IfOk result (λ left. term_view left ≡ passed
        (seen_from m here.now class state.old.held) time frame.0 (term_view term)) }
    ensures state { state.new ≡ state.old }
{
    let left = pass_part(alloc, here, state, frame, term.into_inner(), time)?;
    Boxed::new(alloc, left)
}

// Parts side by side.
#[cycle(passing)]
fn pass_all(
    alloc: Global,
    here: &Standpoint<'_>,
    state: &mut State,
    frame: FrameId,
    parts: Items<Term>,
    time: u128,
) -> Result<Items<Term>, AllocError>
    requires { AreKnown here.now.classes.now }
    ensures passed { (m : ModelTree) (class : ℕ) → Knows m here.now →
        IfOk result (λ left. terms_view left ≡ passed_all
        (seen_from m here.now class state.old.held) time frame.0 (terms_view parts)) }
    ensures state { state.new ≡ state.old }
{
    let mut left = parts.into_vec();
    for index in 0..left.len() {
        let part = exchange(&mut left, index, Term::Done);
        let part = pass_part(alloc, here, state, frame, part, time)?;
        mem::drop(exchange(&mut left, index, part));
    }
    Ok(Items::from_vec(left))
}

// What stands behind a guard goes on where the guard is open.
#[cycle(passing)]
fn pass_guarded(
    alloc: Global,
    here: &Standpoint<'_>,
    state: &mut State,
    frame: FrameId,
    test: Shared<Code>,
    pos: Pos,
    body: Boxed<Term>,
    time: u128,
) -> Result<Term, AllocError>
    requires { AreKnown here.now.classes.now }
    ensures passed { (m : ModelTree) (class : ℕ) → Knows m here.now →
        IfOk result (λ left. term_view left ≡ passed
        (seen_from m here.now class state.old.held) time frame.0
        (terms.guarded (code.view test) pos (term_view body))) }
    ensures state { state.new ≡ state.old }
{
    pz_rules::laws::evaluations_are_computed();
    let answer = ask_test(alloc, here, state, frame, pos, &test)?;
    if !is_open(answer) {
        return Ok(Term::Guard { test, pos, body });
    }
    let body = pass_boxed(alloc, here, state, frame, body, time)?;
    Ok(Term::Guard { test, pos, body })
}

/// What is left of the term of a process when so much time passes, in clock units, where nothing that
/// its active parts are asked has a trouble. Time is linear in the term and in the evaluations that its
/// active parts ask for. The state stays as it is, always, and the only error is want of memory.
pub fn pass(
    alloc: Global,
    here: &Standpoint<'_>,
    state: &mut State,
    term: Term,
    time: u128,
) -> Result<Term, AllocError>
    requires { AreKnown here.now.classes.now }
    ensures passes { (m : ModelTree) (class : ℕ) → Knows m here.now →
        IsUntroubled (seen_from m here.now class state.old.held) 0 (term_view term) →
        IfOk result (λ left. Passes (seen_from m here.now class state.old.held) time 0
        (term_view term) (term_view left)) }
    // The same, computed, also where something has a trouble.
    ensures computed { (m : ModelTree) (class : ℕ) → Knows m here.now →
        IfOk result (λ left. term_view left ≡ passed
        (seen_from m here.now class state.old.held) time 0 (term_view term)) }
    ensures state { state.new ≡ state.old }
{
    pz_rules::laws::passing_is_computed();
    // A process stands in no frame.
    pass_part(alloc, here, state, FrameId(0), term, time)
}
