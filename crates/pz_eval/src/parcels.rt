//! What a send would hand over.

ghost use Rattle.std.specs.Prelude.{◌≡◌, IfOk};
ghost use Rattle.pz_classes_code.specs.pz_syntax.Classes.{ModelTree};
ghost use Rattle.pz_classes_code.specs.CodeView.{list_view};
ghost use Rattle.pz_eval_machine.specs.pz_classes.devices.Rows.{AreClasses};
ghost use Rattle.pz_eval_machine.specs.pz_eval_operations.Known.{AreKnown};
ghost use Rattle.pz_eval.specs.Parcels.{FindsParcel};
ghost use Rattle.pz_eval.specs.devices.Parceled.{parceled};

use crate::evaluating::eval_list;
use pz_classes_code::Code;
use pz_classes_code::pz_syntax::Pos;
use pz_copy::pz_state::{FaultKind, FrameId, State};
use pz_copy::{Parcel, pack};
use pz_eval_machine::pz_classes::Classes;
use pz_eval_machine::pz_eval_rules::{Allowance, Listed};
use std::alloc::{AllocError, Global};

/// What the evaluation of a list finds, its values in a parcel.
#[derive(Drop)]
pub enum Parceled {
    Parcel(Parcel),
    /// What is wrong, and where.
    Fault(FaultKind, Pos),
    /// More units, or a greater depth, are needed than are allowed.
    Spent,
}

/// The parcel is what is found. The only error is want of memory.
fn in_parcel(parcel: Result<Parcel, AllocError>) -> Result<Parceled, AllocError>
    ensures { result ≡ parceled parcel }
{
    match parcel {
        Ok(parcel) => Ok(Parceled::Parcel(parcel)),
        Err(error) => Err(error),
    }
}

/// The values that expressions come to in a parcel. Effects stay where there are values.
fn parcel_of(
    alloc: Global,
    classes: &Classes,
    state: &mut State,
    frame: FrameId,
    clock: u128,
    codes: &[Code],
    allowance: Allowance,
) -> Result<Parceled, AllocError>
    requires { AreKnown classes.now }
    ensures finds { (m : ModelTree) → ∥ AreClasses m classes.now ∥₁ →
        IfOk result (FindsParcel m clock frame.0 state.old.held (list_view codes.now) allowance) }
    ensures marks { state.new.marks ≡ state.old.marks }
{
    match eval_list(alloc, classes, state, frame, clock, codes, allowance) {
        Ok(Listed::Values(values)) => in_parcel(pack(alloc, state, values.as_slice())),
        Ok(Listed::Fault(kind, at)) => Ok(Parceled::Fault(kind, at)),
        Ok(Listed::Spent) => Ok(Parceled::Spent),
        Err(error) => Err(error),
    }
}

/// The parcel of the values that expressions come to, with no effect: the state is as before, always.
/// The only error is want of memory.
pub fn try_parcel(
    alloc: Global,
    classes: &Classes,
    state: &mut State,
    frame: FrameId,
    clock: u128,
    codes: &[Code],
    allowance: Allowance,
) -> Result<Parceled, AllocError>
    requires { AreKnown classes.now }
    ensures finds { (m : ModelTree) → ∥ AreClasses m classes.now ∥₁ →
        IfOk result (FindsParcel m clock frame.0 state.old.held (list_view codes.now) allowance) }
    ensures state { state.new ≡ state.old }
{
    let point = state.mark()?;
    let found = parcel_of(alloc, classes, state, frame, clock, codes, allowance);
    state.undo_to(point);
    found
}
