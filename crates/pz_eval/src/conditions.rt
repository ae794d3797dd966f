//! The condition of a receive.

ghost use Rattle.std.specs.Prelude.{◌≡◌, length, Err, IfOk, OnOk, OnErr, All};
ghost use Rattle.pz_classes_code.specs.pz_syntax.Classes.{ModelTree};
ghost use Rattle.pz_classes_code.specs.CodeView.{view};
ghost use Rattle.pz_eval_machine.specs.pz_classes.devices.Rows.{AreClasses};
ghost use Rattle.pz_copy.specs.pz_state.References.{RefersWithin};
ghost use Rattle.pz_copy.specs.pz_state.Marks.{changed};
ghost use Rattle.pz_eval_machine.specs.pz_eval_operations.Known.{AreKnown};
ghost use Rattle.pz_eval_binding.specs.Binding.{set_slots, bound};
ghost use Rattle.pz_eval.specs.Conditions.{Fits, FindsCondition};

use crate::evaluating::try_eval;
use pz_classes_code::pz_syntax::Pos;
use pz_classes_code::pz_value::Value;
use pz_classes_code::{Code, Slot};
use pz_copy::pz_state::{FaultKind, FrameId, State};
use pz_copy::{Parcel, UnpackError, unpack};
use pz_eval_binding::set_slots;
use pz_eval_machine::pz_classes::Classes;
use pz_eval_machine::pz_eval_rules::{Allowance, Outcome};
use std::alloc::{AllocError, Global};

/// Gives variables of the process these values, from left to right.
fn bind_values(
    state: &mut State,
    frame: FrameId,
    into: &[Slot],
    values: Vec<Value>,
) -> Result<(), UnpackError>
    requires { All (RefersWithin (length state.old.held.objects)) values.items }
    ensures ok { OnOk result (state.new ≡ changed state.old
        (set_slots frame.0 into.now values.items state.old.held)) }
    ensures marks { state.new.marks ≡ state.old.marks }
    ensures err { OnErr result (result ≡ Err UnpackError.NoMemory) }
{
    match set_slots(state, frame, into, values) {
        Ok(()) => Ok(()),
        Err(AllocError) => Err(UnpackError::NoMemory),
    }
}

/// Unpacks a parcel and binds its values to these variables. At a refusal the open marks are as before.
fn bind(
    alloc: Global,
    state: &mut State,
    frame: FrameId,
    parcel: &Parcel,
    into: &[Slot],
) -> Result<(), UnpackError>
    ensures ok { OnOk result (state.new ≡ changed state.old
        (bound frame.0 into.now parcel.now state.old.held)) }
    ensures fits { OnOk result (Fits state.old.held parcel.now) }
    ensures full { result ≡ Err UnpackError.StoreFull → ¬ Fits state.old.held parcel.now }
    ensures marks { state.new.marks ≡ state.old.marks }
{
    match unpack(alloc, state, parcel) {
        Ok(values) => bind_values(state, frame, into, values),
        Err(error) => Err(error),
    }
}

/// What an expression comes to once a parcel is unpacked and its values are bound. Effects may stay.
fn condition_of(
    alloc: Global,
    classes: &Classes,
    state: &mut State,
    frame: FrameId,
    clock: u128,
    parcel: &Parcel,
    into: &[Slot],
    receive: Pos,
    code: &Code,
    allowance: Allowance,
) -> Result<Outcome, AllocError>
    requires { AreKnown classes.now }
    ensures finds { (m : ModelTree) → ∥ AreClasses m classes.now ∥₁ →
        IfOk result (FindsCondition m clock frame.0 state.old.held parcel.now into.now receive
        (view code.now) allowance) }
    ensures marks { state.new.marks ≡ state.old.marks }
{
    match bind(alloc, state, frame, parcel, into) {
        Ok(()) => try_eval(alloc, classes, state, frame, clock, code, allowance),
        Err(UnpackError::StoreFull) => Ok(Outcome::Fault(FaultKind::StoreFull, receive)),
        Err(UnpackError::NoMemory) => Err(AllocError),
    }
}

/// What an expression comes to once a parcel is unpacked and its values are bound to these variables
/// from left to right, with no effect: the state is as before, always. Where the parcel finds no room,
/// that is a fault of the receive. The only error is want of memory.
pub fn try_condition(
    alloc: Global,
    classes: &Classes,
    state: &mut State,
    frame: FrameId,
    clock: u128,
    parcel: &Parcel,
    into: &[Slot],
    receive: Pos,
    code: &Code,
    allowance: Allowance,
) -> Result<Outcome, AllocError>
    requires { AreKnown classes.now }
    ensures finds { (m : ModelTree) → ∥ AreClasses m classes.now ∥₁ →
        IfOk result (FindsCondition m clock frame.0 state.old.held parcel.now into.now receive
        (view code.now) allowance) }
    ensures state { state.new ≡ state.old }
{
    let point = state.mark()?;
    let found = condition_of(
        alloc, classes, state, frame, clock, parcel, into, receive, code, allowance,
    );
    state.undo_to(point);
    found
}
