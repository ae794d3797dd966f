// Evaluations of a statement whose effects stay. The only error is want of memory.

ghost use Rattle.std.specs.Prelude.{◌≡◌, ℕ, length, All, IfOk};
ghost use Rattle.pz_classes_code.specs.pz_syntax.Classes.{ModelTree};
ghost use Rattle.pz_classes_code.specs.pz_syntax.Expressions.{written};
ghost use Rattle.pz_classes_code.specs.CodeView.{view, list_view, part_view};
ghost use Rattle.pz_rules.specs.pz_state.References.{RefersWithin};
ghost use Rattle.pz_rules.specs.Evaluations.{Gives, GivesAll};
ghost use Rattle.pz_part_queries.specs.pz_eval.Known.{AreKnown};
ghost use Rattle.pz_part_queries.specs.Standpoints.{Knows, seen_from};
ghost use Rattle.pz_part_actions.specs.devices.Effects.{Tested, Ran, ran};

use pz_classes_code::Code;
use pz_classes_code::pz_items::{Items, Shared};
use pz_classes_code::pz_syntax::Pos;
use pz_classes_code::pz_value::Value;
use pz_part_queries::pz_eval::{eval, eval_list};
use pz_part_queries::{Standpoint, allowance, truth_of, value_or_trouble, values_or_trouble};
use pz_rules::pz_offer::Trouble;
use pz_rules::pz_state::{FrameId, State};
use std::alloc::{AllocError, Global};

/// The value of an expression of the statement at this place, or the trouble of it.
pub(crate) fn evaluate(
    alloc: Global,
    here: &Standpoint<'_>,
    state: &mut State,
    frame: FrameId,
    pos: Pos,
    code: &Code,
) -> Result<Result<Value, Trouble>, AllocError>
    requires { AreKnown here.now.classes.now }
    ensures gives { (m : ModelTree) (class : ℕ) → Knows m here.now →
        IfOk result (λ found. Gives (seen_from m here.now class state.old.held) frame.0 pos
        (view code.now) found state.new.held) }
    ensures marks { state.new.marks ≡ state.old.marks }
{
    let allowed = allowance(here.limits);
    let outcome = eval(alloc, here.classes, state, frame, here.clock, code, allowed)?;
    Ok(value_or_trouble(here.process, pos, outcome))
}

/// The values of expressions that are evaluated together, from left to right, or the trouble.
pub(crate) fn evaluate_all(
    alloc: Global,
    here: &Standpoint<'_>,
    state: &mut State,
    frame: FrameId,
    pos: Pos,
    codes: &[Code],
) -> Result<Result<Items<Value>, Trouble>, AllocError>
    requires { AreKnown here.now.classes.now }
    ensures gives { (m : ModelTree) (class : ℕ) → Knows m here.now →
        IfOk result (λ found. GivesAll (seen_from m here.now class state.old.held) frame.0 pos
        (list_view codes.now) found state.new.held) }
    ensures within { IfOk result (λ found. IfOk found
        (All (RefersWithin (length state.new.held.objects)))) }
    ensures marks { state.new.marks ≡ state.old.marks }
{
    let allowed = allowance(here.limits);
    let listed = eval_list(
        alloc,
        here.classes,
        state,
        frame,
        here.clock,
        codes,
        allowed,
    )?;
    Ok(values_or_trouble(here.process, pos, listed))
}

/// Whether a test of the statement at this place is true, or the trouble of it.
pub(crate) fn test(
    alloc: Global,
    here: &Standpoint<'_>,
    state: &mut State,
    frame: FrameId,
    pos: Pos,
    code: &Code,
) -> Result<Result<bool, Trouble>, AllocError>
    requires { AreKnown here.now.classes.now }
    ensures tests { (m : ModelTree) (class : ℕ) → Knows m here.now →
        IfOk result (λ found. Tested (seen_from m here.now class state.old.held) frame.0 pos
        (view code.now) found state.new.held) }
    ensures marks { state.new.marks ≡ state.old.marks }
{
    let found = evaluate(alloc, here, state, frame, pos, code)?;
    Ok(truth_of(here.process, pos, found))
}

/// That there was no trouble, or the trouble.
pub(crate) fn without_value<T: Drop>(found: Result<T, Trouble>) -> Result<(), Trouble>
    ensures { result ≡ ran found }
{
    let _value = found?;
    Ok(())
}

/// Evaluates expressions together for their effects alone.
pub(crate) fn run(
    alloc: Global,
    here: &Standpoint<'_>,
    state: &mut State,
    frame: FrameId,
    pos: Pos,
    codes: &[Code],
) -> Result<Result<(), Trouble>, AllocError>
    requires { AreKnown here.now.classes.now }
    ensures runs { (m : ModelTree) (class : ℕ) → Knows m here.now →
        IfOk result (λ end. Ran (seen_from m here.now class state.old.held) frame.0 pos
        (written (list_view codes.now)) end state.new.held) }
    ensures marks { state.new.marks ≡ state.old.marks }
{
    let found = evaluate_all(alloc, here, state, frame, pos, codes)?;
    Ok(without_value(found))
}

/// The same of expressions that may be left out.
pub(crate) fn run_part(
    alloc: Global,
    here: &Standpoint<'_>,
    state: &mut State,
    frame: FrameId,
    pos: Pos,
    part: &Option<Shared<Items<Code>>>,
) -> Result<Result<(), Trouble>, AllocError>
    requires { AreKnown here.now.classes.now }
    ensures runs { (m : ModelTree) (class : ℕ) → Knows m here.now →
        IfOk result (λ end. Ran (seen_from m here.now class state.old.held) frame.0 pos
        (part_view part.now) end state.new.held) }
    ensures marks { state.new.marks ≡ state.old.marks }
{
    match part {
        None => Ok(Ok(())),
        Some(codes) => run(alloc, here, state, frame, pos, codes.get().as_slice()),
    }
}
