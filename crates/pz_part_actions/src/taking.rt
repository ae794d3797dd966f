//! What a receive leaves of the part that it is. The only error is want of memory.

ghost use Rattle.std.specs.Prelude.{◌≡◌, ℕ, List, length, All, Option, IfOk, OnOk};
ghost use Rattle.pz_classes_code.specs.pz_syntax.declared.tokens.Pos.{Pos as Position};
ghost use Rattle.pz_classes_code.specs.pz_syntax.declared.names.Id.{Id};
ghost use Rattle.pz_classes_code.specs.pz_syntax.Classes.{ModelTree};
ghost use Rattle.pz_classes_code.specs.pz_syntax.Statements as statements;
ghost use Rattle.pz_classes_code.specs.CodeView.{part_view};
ghost use Rattle.pz_rules.specs.pz_state.References.{RefersWithin};
ghost use Rattle.pz_rules.specs.Terms as terms;
ghost use Rattle.pz_eval_binding.specs.Binding as slots;
ghost use Rattle.pz_rules.specs.Messages.{Receives, Takes, variables_of};
ghost use Rattle.pz_rules.specs.View.{term_view};
ghost use Rattle.pz_part_queries.specs.pz_eval.Known.{AreKnown};
ghost use Rattle.pz_part_queries.specs.Standpoints.{Knows, seen_from};
ghost use Rattle.pz_rules.specs.Acting.{IsReceive};
ghost use Rattle.pz_part_actions.specs.Becoming.{done_left};
ghost use Rattle.pz_part_actions.specs.devices.Effects.{Ran};

use crate::evaluating::run_part;
use pz_classes_code::pz_items::{Boxed, Items, Shared};
use pz_classes_code::pz_syntax::Pos;
use pz_classes_code::pz_value::Value;
use pz_classes_code::{Code, Slot, StepForm};
use pz_eval_binding::set_slots;
use pz_part_queries::Standpoint;
use pz_rules::Term;
use pz_rules::pz_copy::{Parcel, UnpackError, unpack};
use pz_rules::pz_offer::Trouble;
use pz_rules::pz_state::{FaultKind, FrameId, State};
use std::alloc::{AllocError, Global};

/// The variables of a receive; none without brackets.
fn variables(into: &Option<Shared<Items<Slot>>>) -> &[Slot]
    ensures { result.now ≡ variables_of into.now }
{
    match into {
        Some(slots) => slots.get().as_slice(),
        None => &[],
    }
}

/// The values are bound, then the block is evaluated.
fn bind(
    alloc: Global,
    here: &Standpoint<'_>,
    state: &mut State,
    frame: FrameId,
    pos: Pos,
    into: &[Slot],
    values: Vec<Value>,
    block: &Boxed<Option<Shared<Items<Code>>>>,
) -> Result<Result<(), Trouble>, AllocError>
    requires known { AreKnown here.now.classes.now }
    requires within { All (RefersWithin (length state.old.held.objects)) values.items }
    ensures runs { (m : ModelTree) (class : ℕ) → Knows m here.now →
        IfOk result (λ end. Ran (seen_from m here.now class
        (slots.set_slots frame.0 into.now values.items state.old.held)) frame.0 pos
        (part_view block.now) end state.new.held) }
    ensures marks { OnOk result (state.new.marks ≡ state.old.marks) }
{
    set_slots(state, frame, into, values)?;
    run_part(alloc, here, state, frame, pos, block.get())
}

/// A receive: the parcel is unpacked and bound, then the block is evaluated.
fn receive(
    alloc: Global,
    here: &Standpoint<'_>,
    state: &mut State,
    frame: FrameId,
    pos: Pos,
    into: &Option<Shared<Items<Slot>>>,
    block: &Boxed<Option<Shared<Items<Code>>>>,
    parcel: &Parcel,
) -> Result<Result<(), Trouble>, AllocError>
    requires { AreKnown here.now.classes.now }
    ensures takes { (m : ModelTree) (class port : ℕ) (name : Id) (condition : Option terms.Code) →
        Knows m here.now → IfOk result (λ left. Takes
        (seen_from m here.now class state.old.held) frame.0 parcel.now
        (terms.leaf (statements.receive pos port name into.now condition (part_view block.now))) pos
        (done_left state.new.held left)) }
    ensures marks { OnOk result (state.new.marks ≡ state.old.marks) }
{
    match unpack(alloc, state, parcel) {
        Ok(values) => {
            let into = variables(into);
            bind(alloc, here, state, frame, pos, into, values, block)
        }
        Err(UnpackError::StoreFull) => Ok(Err(Trouble::Fault {
            kind: FaultKind::StoreFull,
            process: here.process,
            pos,
        })),
        Err(UnpackError::NoMemory) => Err(AllocError),
    }
}

/// What a receive leaves of the part that it is, when it takes this parcel: nothing, once the parcel
/// is unpacked and bound and then the block is evaluated. Whether it takes the parcel was judged
/// before. Effects stay, and after a trouble some may: who calls marks the state before. The time is
/// that of the evaluation, and linear in the parcel. The only error is want of memory.
pub fn take(
    alloc: Global,
    here: &Standpoint<'_>,
    state: &mut State,
    frame: FrameId,
    part: &Term,
    parcel: &Parcel,
) -> Result<Result<(), Trouble>, AllocError>
    requires known { AreKnown here.now.classes.now }
    requires receives { IsReceive (term_view part.now) }
    ensures takes { (m : ModelTree) (class : ℕ) (pos : Position) (port : ℕ) (message : List ℕ)
        (count : ℕ) → Knows m here.now → Receives (term_view part.now) pos port message count →
        IfOk result (λ left. Takes (seen_from m here.now class state.old.held) frame.0 parcel.now
        (term_view part.now) pos (done_left state.new.held left)) }
    ensures marks { OnOk result (state.new.marks ≡ state.old.marks) }
{
    let Term::Leaf(step) = part else {
        unreachable!();
    };
    match step.form.get() {
        StepForm::Receive { into, block, .. } => {
            receive(alloc, here, state, frame, step.pos, into, block, parcel)
        }
        _ => unreachable!(),
    }
}
