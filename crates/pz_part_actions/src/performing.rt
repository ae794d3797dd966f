//! What a part becomes by itself. The only error is want of memory.

ghost use Rattle.std.specs.Prelude.{◌≡◌, ◌≤◌, ℕ, IfOk, OnOk};
ghost use Rattle.pz_classes_code.specs.pz_syntax.Classes.{ModelTree};
ghost use Rattle.pz_classes_code.specs.pz_syntax.declared.tokens.Pos.{Pos as Position};
ghost use Rattle.pz_classes_code.specs.pz_syntax.Statements as statements;
ghost use Rattle.pz_part_queries.specs.pz_classes.CheckedView.{checked_model};
ghost use Rattle.pz_classes_code.specs.CodeView.{view as code_view, list_view};
ghost use Rattle.pz_classes_code.specs.StepView.{view};
ghost use Rattle.pz_rules.specs.pz_state.States.{StateView};
ghost use Rattle.pz_rules.specs.declared.action.Kind.{Kind};
ghost use Rattle.pz_rules.specs.Terms as terms;
ghost use Rattle.pz_rules.specs.Terms.{height};
ghost use Rattle.pz_rules.specs.InternalActions.{Can};
ghost use Rattle.pz_rules.specs.View.{term_view};
ghost use Rattle.pz_part_queries.specs.pz_eval.Known.{AreKnown};
ghost use Rattle.pz_part_queries.specs.Standpoints.{Knows, seen_from};
ghost use Rattle.pz_rules.specs.Acting.{IsActing};
ghost use Rattle.pz_part_actions.specs.Becoming.{process_left, done_left, HasPerformed, IsBuiltLow};
ghost use Rattle.pz_part_actions.specs.Fitting.{FitsHere};
ghost use Rattle.pz_part_actions.specs.Homes.{seen_home};
ghost use Rattle.pz_part_actions.specs.devices.Standing.{seen_there};

use crate::calling::perform_call;
use crate::evaluating::{evaluate, run, without_value};
use crate::standing::at_home;
use crate::testing::{perform_if, perform_while};
use pz_classes_code::pz_syntax::Pos;
use pz_classes_code::{Code, Step, StepForm};
use pz_part_queries::Standpoint;
use pz_rules::Term;
use pz_rules::pz_offer::Trouble;
use pz_rules::pz_state::{FrameId, State};
use pz_term_around::pz_part_opening::Home;
use std::alloc::{AllocError, Global};

/// Nothing is left, unless there is a trouble.
fn done(end: Result<(), Trouble>) -> Result<Term, Trouble>
    ensures left { (s : StateView) → process_left s result ≡ done_left s end }
    ensures low { IfOk result (λ term. height (term_view term) ≤ 1) }
{
    end?;
    Ok(Term::Done)
}

/// An expression that is a statement.
fn perform_value(
    alloc: Global,
    here: &Standpoint<'_>,
    state: &mut State,
    frame: FrameId,
    pos: Pos,
    code: &Code,
) -> Result<Result<Term, Trouble>, AllocError>
    requires { AreKnown here.now.classes.now }
    ensures performs { (m : ModelTree) (class : ℕ) → Knows m here.now →
        IfOk result (λ left. HasPerformed (seen_from m here.now class state.old.held) frame.0
        (terms.leaf (statements.value pos (code_view code.now))) pos
        (process_left state.new.held left)) }
    ensures low { IfOk result (λ left. IsBuiltLow here.now left) }
    ensures marks { state.new.marks ≡ state.old.marks }
{
    let found = evaluate(alloc, here, state, frame, pos, code)?;
    Ok(done(without_value(found)))
}

/// A block.
fn perform_block(
    alloc: Global,
    here: &Standpoint<'_>,
    state: &mut State,
    frame: FrameId,
    pos: Pos,
    codes: &[Code],
) -> Result<Result<Term, Trouble>, AllocError>
    requires { AreKnown here.now.classes.now }
    ensures performs { (m : ModelTree) (class : ℕ) → Knows m here.now →
        IfOk result (λ left. HasPerformed (seen_from m here.now class state.old.held) frame.0
        (terms.leaf (statements.block pos (list_view codes.now))) pos
        (process_left state.new.held left)) }
    ensures low { IfOk result (λ left. IsBuiltLow here.now left) }
    ensures marks { state.new.marks ≡ state.old.marks }
{
    let end = run(alloc, here, state, frame, pos, codes)?;
    Ok(done(end))
}

/// A statement that has not begun.
fn perform_step(
    alloc: Global,
    here: &Standpoint<'_>,
    home: &Home<'_>,
    state: &mut State,
    frame: FrameId,
    step: &Step,
) -> Result<Result<Term, Trouble>, AllocError>
    requires known { AreKnown here.now.classes.now }
    requires edition { here.now.limits.edition ≡ home.now.edition }
    requires acts { IsActing (terms.leaf (view step.now)) }
    requires fits { ∥ FitsHere here.now home.now.class (terms.leaf (view step.now)) ∥₁ }
    ensures performs { Knows (checked_model home.now.checked.now) here.now →
        IfOk result (λ left. HasPerformed (seen_there here.now home.now state.old.held) frame.0
        (terms.leaf (view step.now)) step.now.pos (process_left state.new.held left)) }
    ensures low { IfOk result (λ left. IsBuiltLow here.now left) }
    ensures marks { OnOk result (state.new.marks ≡ state.old.marks) }
{
    let pos = step.pos;
    match step.form.get() {
        StepForm::Skip => Ok(Ok(Term::Done)),
        // No time is left of it, and its evaluation leaves nothing.
        StepForm::Delay(_) => Ok(Ok(Term::Done)),
        StepForm::Eval(code) => perform_value(alloc, here, state, frame, pos, code),
        StepForm::Block(codes) => perform_block(
            alloc,
            here,
            state,
            frame,
            pos,
            codes.get().as_slice(),
        ),
        StepForm::If(test, steps, other) => {
            perform_if(
                alloc,
                here,
                home,
                state,
                frame,
                pos,
                test.get(),
                steps,
                other,
            )
        }
        StepForm::While(test, body) => {
            perform_while(alloc, here, home, state, frame, step, test.get(), body)
        }
        StepForm::Call {
            method,
            args,
            results,
        } => perform_call(
            alloc,
            here,
            home,
            state,
            frame,
            pos,
            method.get(),
            args.get().as_slice(),
            results,
        ),
        _ => unreachable!(),
    }
}

/// What a part becomes by itself, seen from a standpoint under the edition at home.
fn perform_part(
    alloc: Global,
    here: &Standpoint<'_>,
    home: &Home<'_>,
    state: &mut State,
    frame: FrameId,
    part: &Term,
) -> Result<Result<Term, Trouble>, AllocError>
    requires known { AreKnown here.now.classes.now }
    requires edition { here.now.limits.edition ≡ home.now.edition }
    requires acts { IsActing (term_view part.now) }
    requires fits { ∥ FitsHere here.now home.now.class (term_view part.now) ∥₁ }
    ensures performs { (kind : Kind) (pos : Position) →
        Knows (checked_model home.now.checked.now) here.now →
        Can (seen_there here.now home.now state.old.held) frame.0 (term_view part.now) kind pos →
        IfOk result (λ left. HasPerformed (seen_there here.now home.now state.old.held) frame.0
        (term_view part.now) pos (process_left state.new.held left)) }
    ensures low { IfOk result (λ left. IsBuiltLow here.now left) }
    ensures marks { OnOk result (state.new.marks ≡ state.old.marks) }
{
    match part {
        Term::Leaf(step) => perform_step(alloc, here, home, state, frame, step),
        Term::Wait { .. } => Ok(Ok(Term::Done)),
        _ => unreachable!(),
    }
}

/// What a part becomes by itself, in a frame of a process of the class at home, by the edition there. What
/// would by itself be higher than a term may be is not built: that trouble is the answer. Effects stay, and
/// after a trouble some may: who calls marks the state before. The time is that of the evaluation, and
/// linear in what is opened and in the inputs of a call. The only error is want of memory.
pub fn perform(
    alloc: Global,
    here: &Standpoint<'_>,
    home: &Home<'_>,
    state: &mut State,
    frame: FrameId,
    part: &Term,
) -> Result<Result<Term, Trouble>, AllocError>
    requires known { AreKnown here.now.classes.now }
    requires acts { IsActing (term_view part.now) }
    requires fits { ∥ FitsHere here.now home.now.class (term_view part.now) ∥₁ }
    ensures performs { (kind : Kind) (pos : Position) →
        Knows (checked_model home.now.checked.now) here.now →
        Can (seen_home here.now home.now state.old.held) frame.0 (term_view part.now) kind pos →
        IfOk result (λ left. HasPerformed (seen_home here.now home.now state.old.held) frame.0
        (term_view part.now) pos (process_left state.new.held left)) }
    ensures low { IfOk result (λ left. IsBuiltLow here.now left) }
    ensures marks { OnOk result (state.new.marks ≡ state.old.marks) }
{
    perform_part(alloc, &at_home(here, home), home, state, frame, part)
}
