// How statements become terms, without an action. The only error is want of memory.

ghost use Rattle.std.specs.Prelude.{◌≡◌, ◌≤◌, [], IfOk, OnErr};
ghost use Rattle.pz_classes.specs.CheckedView.{checked_model};
ghost use Rattle.pz_classes_code.specs.StepView.{view, sequence_view};
ghost use Rattle.pz_rules.specs.declared.limits.Edition.TheVariants.{Two};
ghost use Rattle.pz_rules.specs.Opening.{Beside, enter, branches_opened, opened, opened_all};
ghost use Rattle.pz_rules.specs.Openable.{IsProcessClass, HasItsVariables, MayOpen};
ghost use Rattle.pz_rules.specs.View.{term_view, terms_view, branches_view};
ghost use Rattle.pz_rules.specs.Becoming.{Became};
ghost use Rattle.pz_rules.specs.CallLaws.{NoRounds};
ghost use Rattle.pz_rules.specs.devices.Weights.{weight_all};
ghost use Rattle.pz_part_opening.specs.Homes.{home_in, home_view};
ghost use Rattle.pz_part_opening.specs.devices.Spots.{spot_view, Stands, StepStands};
ghost use Rattle.pz_part_opening.specs.devices.Rounds.{frame_round, LeadsIn, BecameBeside};

use crate::home::Home;
use crate::spot::{Spot, way_in};
use pz_classes::Checked;
use pz_classes_code::pz_items::{Boxed, Items, Shared};
use pz_classes_code::pz_value::ClassId;
use pz_classes_code::{Step, StepForm};
use pz_rules::pz_state::{FrameId, State};
use pz_rules::{Limits, Rest, Term};
use std::alloc::{AllocError, Global};

/// What stands inside in the end, and the last of the frames that opened on the way.
#[derive(Clone, Copy)]
pub(crate) struct Descent<'s> {
    pub frame: Option<FrameId>,
    pub spot: Spot<'s>,
}

/// Goes in until neither a bracket nor a plain call that opens is all that stands there, and opens the frame
/// of each such call. A frame that is all of a frame stands in its place, so the last is all that is left of
/// them. The only error is want of memory, and of the state nothing is said then.
fn descend<'s>(
    home: &Home<'s>,
    spot: Spot<'s>,
    state: &mut State,
) -> Result<Descent<'s>, AllocError>
    ensures opened { IfOk result (λ inner. LeadsIn (home_view home.now) spot.entry inner
        state.old state.new) }
    ensures lighter { IfOk result (λ inner. weight_all (home_view home.now) (spot_view inner.spot) ≤
        weight_all (home_view home.now) (spot_view spot.entry)) }
    ensures stands { IfOk result (λ inner. Stands (home_view home.now) (spot_view inner.spot)) }
    ensures marks { state.new.marks ≡ state.old.marks }
{
    pz_rules::laws::calls_unfold();
    pz_rules::laws::frames_are_numbered();
    let mut frame = None;
    let mut inner = spot;
    while let Some(way) = way_in(home, inner) {
        if let Some(locals) = way.locals {
            frame = Some(state.open_frame(locals)?);
        }
        inner = Spot::Several(way.steps);
    }
    Ok(Descent { frame, spot: inner })
}

/// A frame round a term that is no frame without outputs; the term itself where there is none.
fn in_frame(alloc: Global, frame: Option<FrameId>, term: Term) -> Result<Term, AllocError>
    ensures { IfOk result (λ whole. term_view whole ≡ frame_round frame (term_view term)) }
{
    match frame {
        None => Ok(term),
        Some(frame) => Ok(Term::Frame {
            frame,
            inputs: 0,
            results: Shared::new(alloc, Items::new(alloc))?,
            body: Boxed::new(alloc, term)?,
        }),
    }
}

/// The term of what stands there, in the state that its opening leaves. Calls itself for parts of the term
/// alone, whatever calls stand at the ends of methods. The only error is want of memory, and of the state
/// nothing is said then.
#[cycle(opening)]
fn open_spot(
    alloc: Global,
    home: &Home<'_>,
    spot: Spot<'_>,
    state: &mut State,
) -> Result<Term, AllocError>
    ensures opened { IfOk result (λ term. Became (opened_all (home_view home.now)
        (spot_view spot.entry)
        state.old.held) (term_view term) state.old state.new) }
    ensures marks { state.new.marks ≡ state.old.marks }
{
    pz_rules::laws::calls_unfold();
    // Lent again, for no longer than the spot.
    let inner = descend(&*home, spot, state)?;
    let term = open_standing(alloc, home, inner.spot, state)?;
    in_frame(alloc, inner.frame, term)
}

/// The same where neither a bracket nor a plain call that opens is all that stands there.
#[cycle(opening)]
fn open_standing(
    alloc: Global,
    home: &Home<'_>,
    spot: Spot<'_>,
    state: &mut State,
) -> Result<Term, AllocError>
    requires { Stands (home_view home.now) (spot_view spot) }
    ensures opened { IfOk result (λ term. Became (opened_all (home_view home.now)
        (spot_view spot.entry)
        state.old.held) (term_view term) state.old state.new) }
    ensures marks { state.new.marks ≡ state.old.marks }
{
    match spot {
        Spot::One(step) => open_form(alloc, home, step, state),
        Spot::Several(steps) => match steps.get().as_slice() {
            [] => Ok(Term::Done),
            [step] => open_form(alloc, home, step, state),
            [step, ..] => {
                let first = Boxed::new(alloc, open_spot(alloc, home, Spot::One(step), state)?)?;
                Ok(Term::Seq(first, Rest::from(steps.copy()?, 1)))
            }
        },
    }
}

/// The same of a statement.
#[cycle(opening)]
fn open_form(
    alloc: Global,
    home: &Home<'_>,
    step: &Step,
    state: &mut State,
) -> Result<Term, AllocError>
    requires { StepStands (home_view home.now) (view step.now) }
    ensures opened { IfOk result (λ term. Became (opened (home_view home.now) (view step.now)
        state.old.held) (term_view term) state.old state.new) }
    ensures marks { state.new.marks ≡ state.old.marks }
{
    match step.form.get() {
        StepForm::Guard(test, guarded) => {
            let part = open_spot(alloc, home, Spot::One(guarded.get()), state)?;
            Ok(Term::Guard {
                test: test.copy()?,
                pos: step.pos,
                body: Boxed::new(alloc, part)?,
            })
        }
        StepForm::Par(branches) => {
            let parts = open_branches(alloc, home, branches.get().as_slice(), state)?;
            Ok(Term::Par(parts))
        }
        StepForm::Sel(branches) => {
            let parts = open_branches(alloc, home, branches.get().as_slice(), state)?;
            Ok(Term::Sel(parts))
        }
        StepForm::Abort(first, second) => {
            let (first, second) = (Spot::Several(first), Spot::One(second.get()));
            let first = Boxed::new(alloc, open_spot(alloc, home, first, state)?)?;
            let second = Boxed::new(alloc, open_spot(alloc, home, second, state)?)?;
            Ok(Term::Abort(first, second))
        }
        StepForm::Interrupt(first, again) => {
            let (first, second) = (Spot::Several(first), Spot::One(again.get()));
            let first = Boxed::new(alloc, open_spot(alloc, home, first, state)?)?;
            let second = Boxed::new(alloc, open_spot(alloc, home, second, state)?)?;
            Ok(Term::Idle(first, second, again.copy()?))
        }
        _ => {
            pz_rules::laws::calls_unfold();
            Ok(Term::Leaf(step.copy()?))
        }
    }
}

/// The terms of alternatives or parts side by side, from left to right.
#[cycle(opening)]
fn open_branches(
    alloc: Global,
    home: &Home<'_>,
    branches: &[Shared<Items<Step>>],
    state: &mut State,
) -> Result<Items<Term>, AllocError>
    ensures opened { IfOk result (λ terms. BecameBeside
        (branches_opened (enter (home_view home.now))
        (branches_view branches.now) state.old.held) (terms_view terms) state.old state.new) }
    ensures marks { state.new.marks ≡ state.old.marks }
{
    let mut terms = Items::new(alloc);
    for branch in branches {
        terms.push(open_spot(alloc, home, Spot::Several(branch), state)?)?;
    }
    Ok(terms)
}

/// The term of a statement, in the state that its opening leaves. The only error is want of memory, and
/// of the state nothing is said then.
pub fn open_step(
    alloc: Global,
    home: &Home<'_>,
    step: &Step,
    state: &mut State,
) -> Result<Term, AllocError>
    ensures opened { IfOk result (λ term. Became
        (opened (home_view home.now) (view step.now) state.old.held) (term_view term) state.old
        state.new) }
    ensures marks { state.new.marks ≡ state.old.marks }
{
    open_spot(alloc, home, Spot::One(step), state)
}

/// The term of statements in a sequence, in the state that their opening leaves: the first stands open,
/// and the others wait behind it. The only error is want of memory, and of the state nothing is said then.
pub fn open_all(
    alloc: Global,
    home: &Home<'_>,
    steps: &Shared<Items<Step>>,
    state: &mut State,
) -> Result<Term, AllocError>
    ensures opened { IfOk result (λ term. Became
        (opened_all (home_view home.now) (sequence_view steps.now) state.old.held) (term_view term)
        state.old state.new) }
    ensures marks { state.new.marks ≡ state.old.marks }
{
    open_spot(alloc, home, Spot::Several(steps), state)
}

/// The term of statements that wait, in the state that their opening leaves. The only error is want of
/// memory, and of the state nothing is said then.
pub fn open_rest(
    alloc: Global,
    home: &Home<'_>,
    rest: Rest,
    state: &mut State,
) -> Result<Term, AllocError>
    ensures opened { IfOk result (λ term. Became
        (opened_all (home_view home.now) (sequence_view rest) state.old.held) (term_view term)
        state.old state.new) }
    ensures marks { state.new.marks ≡ state.old.marks }
{
    let Some(step) = rest.first() else {
        return Ok(Term::Done);
    };
    let term = open_step(alloc, home, step, state)?;
    let rest = rest.behind_first();
    if rest.is_empty() {
        return Ok(term);
    }
    let boxed = Boxed::new(alloc, term)?;
    Ok(Term::Seq(boxed, rest))
}

/// Equal statements in the same order, to be shared.
fn shared(alloc: Global, steps: &[Step]) -> Result<Shared<Items<Step>>, AllocError>
    ensures { IfOk result (λ copies. copies ≡ steps.now) }
{
    let mut copies = Items::new(alloc);
    for step in steps {
        copies.push(step.copy()?)?;
    }
    Shared::new(alloc, copies)
}

/// The term of statements of a process of this class, which stand in the given frame: part of a body
/// of one of its methods, or the call with which it starts, alone, in no frame. In edition Two plain calls
/// open as the frames of their methods, which open in the state. The only error is want of memory, and then
/// the state is as before.
pub fn open_term(
    alloc: Global,
    checked: &Checked,
    class: ClassId,
    state: &mut State,
    frame: FrameId,
    steps: &[Step],
    limits: Limits,
) -> Result<Term, AllocError>
    requires process { IsProcessClass (checked_model checked.now) class.0 }
    requires variables { HasItsVariables (checked_model checked.now) class.0 state.old.held }
    requires there { MayOpen (checked_model checked.now) class.0 state.old.held frame.0
        (sequence_view steps.now) }
    requires rounds { limits.edition ≡ Two → NoRounds (checked_model checked.now) }
    ensures opened { IfOk result (λ term. Became
        (opened_all (home_in (checked_model checked.now) class limits) (sequence_view steps.now)
        state.old.held) (term_view term) state.old state.new) }
    ensures err { OnErr result (state.new ≡ state.old) }
{
    let home = Home::new(checked, class, limits);
    let steps = shared(alloc, steps)?;
    let before = state.mark()?;
    match open_all(alloc, &home, &steps, state) {
        Ok(term) => {
            state.keep(before);
            Ok(term)
        }
        Err(want) => {
            state.undo_to(before);
            Err(want)
        }
    }
}
