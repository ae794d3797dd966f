// What a test decides: an `if` and a `while`. The only error is want of memory.

ghost use Rattle.std.specs.Prelude.{◌≡◌, ℕ, IfOk, OnOk};
ghost use Rattle.pz_classes_code.specs.pz_syntax.Statements as statements;
ghost use Rattle.pz_classes_code.specs.CodeView as code;
ghost use Rattle.pz_classes_code.specs.StepView.{view, sequence_view};
ghost use Rattle.pz_part_queries.specs.pz_classes.CheckedView.{checked_model};
ghost use Rattle.pz_rules.specs.Terms as terms;
ghost use Rattle.pz_rules.specs.InternalActions as actions;
ghost use Rattle.pz_rules.specs.Opening.{opened_all};
ghost use Rattle.pz_part_queries.specs.pz_eval.Known.{AreKnown};
ghost use Rattle.pz_term_around.specs.pz_part_opening.Homes.{home_view};
ghost use Rattle.pz_part_queries.specs.Standpoints.{Knows};
ghost use Rattle.pz_part_actions.specs.Becoming.{process_left, HasPerformed, IsBuiltLow};
ghost use Rattle.pz_part_actions.specs.devices.Standing.{seen_there};
ghost use Rattle.pz_part_actions.specs.devices.Parts.{otherwise_view};
ghost use Rattle.pz_part_actions.specs.devices.Openings.{OpensAs};

use crate::evaluating::test;
use crate::opening::{open_low, open_part};
use pz_classes_code::pz_items::{Boxed, Items, Shared};
use pz_classes_code::pz_syntax::Pos;
use pz_classes_code::{Code, Step};
use pz_part_queries::Standpoint;
use pz_rules::pz_offer::Trouble;
use pz_rules::pz_state::{FrameId, State};
use pz_rules::{Rest, Term};
use pz_term_around::pz_part_opening::Home;
use std::alloc::{AllocError, Global};

/// The part of an `if` that is chosen.
fn chosen(
    alloc: Global,
    here: &Standpoint<'_>,
    home: &Home<'_>,
    pos: Pos,
    truth: bool,
    steps: &Shared<Items<Step>>,
    other: &Option<Shared<Items<Step>>>,
    state: &mut State,
) -> Result<Result<Term, Trouble>, AllocError>
    ensures opens { IfOk result (λ left. OpensAs here.now pos
        (actions.chosen (home_view home.now) state.old.held (sequence_view steps.now)
        (otherwise_view other.now) truth) state.old state.new left) }
    ensures low { IfOk result (λ left. IsBuiltLow here.now left) }
    ensures marks { state.new.marks ≡ state.old.marks }
{
    if truth {
        open_low(alloc, here, home, pos, steps, state)
    } else {
        open_part(alloc, here, home, pos, other, state)
    }
}

/// An `if`.
pub(crate) fn perform_if(
    alloc: Global,
    here: &Standpoint<'_>,
    home: &Home<'_>,
    state: &mut State,
    frame: FrameId,
    pos: Pos,
    condition: &Code,
    steps: &Shared<Items<Step>>,
    other: &Option<Shared<Items<Step>>>,
) -> Result<Result<Term, Trouble>, AllocError>
    requires known { AreKnown here.now.classes.now }
    requires edition { here.now.limits.edition ≡ home.now.edition }
    ensures performs { Knows (checked_model home.now.checked.now) here.now →
        IfOk result (λ left. HasPerformed (seen_there here.now home.now state.old.held) frame.0
        (terms.leaf (statements.conditional pos (code.view condition.now) (sequence_view steps.now)
        (otherwise_view other.now))) pos (process_left state.new.held left)) }
    ensures low { IfOk result (λ left. IsBuiltLow here.now left) }
    ensures marks { OnOk result (state.new.marks ≡ state.old.marks) }
{
    match test(alloc, here, state, frame, pos, condition)? {
        Ok(truth) => chosen(alloc, here, home, pos, truth, steps, other, state),
        Err(trouble) => Ok(Err(trouble)),
    }
}

/// The body of a `while` and then the same `while`.
fn go_round(
    alloc: Global,
    here: &Standpoint<'_>,
    home: &Home<'_>,
    again: &Step,
    body: &Shared<Items<Step>>,
    state: &mut State,
) -> Result<Result<Term, Trouble>, AllocError>
    ensures opens { IfOk result (λ left. OpensAs here.now again.now.pos
        (actions.before_loop (view again.now)
        (opened_all (home_view home.now) (sequence_view body.now) state.old.held)) state.old
        state.new left) }
    ensures low { IfOk result (λ left. IsBuiltLow here.now left) }
    ensures marks { state.new.marks ≡ state.old.marks }
{
    match open_low(alloc, here, home, again.pos, body, state)? {
        Ok(first) => {
            let rest = Rest::again(again.copy()?);
            Ok(Ok(Term::Seq(Boxed::new(alloc, first)?, rest)))
        }
        Err(trouble) => Ok(Err(trouble)),
    }
}

/// The body of a `while` and then the same `while`, or nothing.
fn turned(
    alloc: Global,
    here: &Standpoint<'_>,
    home: &Home<'_>,
    truth: bool,
    again: &Step,
    body: &Shared<Items<Step>>,
    state: &mut State,
) -> Result<Result<Term, Trouble>, AllocError>
    ensures opens { IfOk result (λ left. OpensAs here.now again.now.pos
        (actions.turned (home_view home.now) state.old.held (view again.now)
        (sequence_view body.now) truth) state.old state.new left) }
    ensures low { IfOk result (λ left. IsBuiltLow here.now left) }
    ensures marks { state.new.marks ≡ state.old.marks }
{
    if truth {
        go_round(alloc, here, home, again, body, state)
    } else {
        Ok(Ok(Term::Done))
    }
}

/// A `while`, with its condition and its body.
pub(crate) fn perform_while(
    alloc: Global,
    here: &Standpoint<'_>,
    home: &Home<'_>,
    state: &mut State,
    frame: FrameId,
    step: &Step,
    condition: &Code,
    body: &Shared<Items<Step>>,
) -> Result<Result<Term, Trouble>, AllocError>
    requires known { AreKnown here.now.classes.now }
    requires edition { here.now.limits.edition ≡ home.now.edition }
    requires is { view step.now ≡ statements.repeated step.now.pos (code.view condition.now)
        (sequence_view body.now) }
    ensures performs { Knows (checked_model home.now.checked.now) here.now →
        IfOk result (λ left. HasPerformed (seen_there here.now home.now state.old.held) frame.0
        (terms.leaf (view step.now)) step.now.pos (process_left state.new.held left)) }
    ensures low { IfOk result (λ left. IsBuiltLow here.now left) }
    ensures marks { OnOk result (state.new.marks ≡ state.old.marks) }
{
    match test(alloc, here, state, frame, step.pos, condition)? {
        Ok(truth) => turned(alloc, here, home, truth, step, body, state),
        Err(trouble) => Ok(Err(trouble)),
    }
}
