//! Expressions, and lists of them.

ghost use Rattle.std.specs.Prelude.{◌≡◌, length, IfOk, OnErr};
ghost use Rattle.pz_classes_code.specs.pz_syntax.Classes.{ModelTree};
ghost use Rattle.pz_classes_code.specs.CodeView.{view, list_view};
ghost use Rattle.pz_eval_machine.specs.pz_classes.devices.Rows.{AreClasses};
ghost use Rattle.pz_eval_machine.specs.pz_eval_rules.Outcomes.{Finds, FindsAll};
ghost use Rattle.pz_eval_machine.specs.pz_eval_operations.Known.{AreKnown};
ghost use Rattle.pz_eval.specs.Tentative.{WouldFind};
ghost use Rattle.pz_eval.specs.devices.Found.{found_value, IsOutcomeOf, IsListedOf};
ghost use Rattle.pz_eval.specs.Promises.{UnlessValue, UnlessValues, NamesWithin, NameWithin};

use crate::listing::evaluate_list;
use pz_classes_code::Code;
use pz_copy::pz_state::{FrameId, State};
use pz_eval_machine::pz_classes::Classes;
use pz_eval_machine::pz_eval_operations::Stop;
use pz_eval_machine::pz_eval_rules::{Allowance, Listed, Outcome};
use pz_eval_machine::{Basis, Finish, evaluate};
use std::alloc::{AllocError, Global};

/// The outcome of an evaluation that ends with a value.
fn value_of(finish: Finish) -> Outcome
    ensures { result ≡ found_value finish }
{
    match finish {
        Finish::Value(value) | Finish::Return(value) => Outcome::Value(value),
    }
}

/// The outcome of an evaluation that has no value. The only error is want of memory.
fn outcome_of(stop: Stop) -> Result<Outcome, AllocError>
    ensures { IfOk result (IsOutcomeOf stop) }
{
    match stop {
        Stop::NoMemory => Err(AllocError),
        Stop::Spent => Ok(Outcome::Spent),
        Stop::Fault(kind, at) => Ok(Outcome::Fault(kind, at)),
    }
}

/// The same of a list.
fn listed_of(stop: Stop) -> Result<Listed, AllocError>
    ensures { IfOk result (IsListedOf stop) }
{
    match stop {
        Stop::NoMemory => Err(AllocError),
        Stop::Spent => Ok(Listed::Spent),
        Stop::Fault(kind, at) => Ok(Listed::Fault(kind, at)),
    }
}

/// Evaluates an expression of a method of a process whose locals are those of this frame. Effects stay
/// where a value is found; after anything else the state is as before. The only error is want of
/// memory.
pub fn eval(
    alloc: Global,
    classes: &Classes,
    state: &mut State,
    frame: FrameId,
    clock: u128,
    code: &Code,
    allowance: Allowance,
) -> Result<Outcome, AllocError>
    requires { AreKnown classes.now }
    ensures finds { (m : ModelTree) → ∥ AreClasses m classes.now ∥₁ →
        IfOk result (λ outcome. Finds m clock frame.0 state.old.held
        (view code.now) allowance outcome state.new.held) }
    ensures within { IfOk result (NamesWithin (length state.new.held.objects)) }
    ensures kept { IfOk result (UnlessValue (state.new ≡ state.old)) }
    ensures marks { state.new.marks ≡ state.old.marks }
    ensures err { OnErr result (state.new ≡ state.old) }
{
    pz_eval_machine::pz_eval_rules::laws::computed_is_found();
    let point = state.mark()?;
    let basis = Basis {
        alloc,
        classes,
        clock,
    };
    let mut units = allowance.units;
    match evaluate(basis, state, &mut units, frame, allowance.depth, code) {
        Ok(finish) => {
            state.keep(point);
            Ok(value_of(finish))
        }
        Err(stop) => {
            state.undo_to(point);
            outcome_of(stop)
        }
    }
}

/// What an expression comes to, with no effect: the state is as before, always. The only error is want
/// of memory.
pub fn try_eval(
    alloc: Global,
    classes: &Classes,
    state: &mut State,
    frame: FrameId,
    clock: u128,
    code: &Code,
    allowance: Allowance,
) -> Result<Outcome, AllocError>
    requires { AreKnown classes.now }
    ensures finds { (m : ModelTree) → ∥ AreClasses m classes.now ∥₁ →
        IfOk result (WouldFind m clock frame.0 state.old.held (view code.now) allowance) }
    ensures state { state.new ≡ state.old }
{
    pz_eval_machine::pz_eval_rules::laws::computed_is_found();
    let point = state.mark()?;
    let basis = Basis {
        alloc,
        classes,
        clock,
    };
    let mut units = allowance.units;
    let found = evaluate(basis, state, &mut units, frame, allowance.depth, code);
    state.undo_to(point);
    match found {
        Ok(finish) => Ok(value_of(finish)),
        Err(stop) => outcome_of(stop),
    }
}

/// Evaluates expressions from left to right, as one evaluation with one allowance. Effects stay where
/// there are values; after anything else the state is as before. The only error is want of memory.
pub fn eval_list(
    alloc: Global,
    classes: &Classes,
    state: &mut State,
    frame: FrameId,
    clock: u128,
    codes: &[Code],
    allowance: Allowance,
) -> Result<Listed, AllocError>
    requires { AreKnown classes.now }
    ensures finds { (m : ModelTree) → ∥ AreClasses m classes.now ∥₁ →
        IfOk result (λ listed. FindsAll m clock frame.0 state.old.held
        (list_view codes.now) allowance listed state.new.held) }
    ensures within { IfOk result (NameWithin (length state.new.held.objects)) }
    ensures kept { IfOk result (UnlessValues (state.new ≡ state.old)) }
    ensures marks { state.new.marks ≡ state.old.marks }
    ensures err { OnErr result (state.new ≡ state.old) }
{
    pz_eval_machine::pz_eval_rules::laws::computed_is_found();
    let point = state.mark()?;
    let basis = Basis {
        alloc,
        classes,
        clock,
    };
    let mut units = allowance.units;
    match evaluate_list(basis, state, &mut units, frame, allowance.depth, codes) {
        Ok(values) => {
            state.keep(point);
            Ok(Listed::Values(values))
        }
        Err(stop) => {
            state.undo_to(point);
            listed_of(stop)
        }
    }
}
