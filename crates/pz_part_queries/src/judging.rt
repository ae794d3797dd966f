// What a receive says to a parcel. The state stays as it is, always, and the only error is want of
// memory.

ghost use Rattle.std.specs.Prelude.{◌≡◌, ℕ, IfOk, option_map};
ghost use Rattle.pz_classes_code.specs.pz_syntax.Classes.{ModelTree};
ghost use Rattle.pz_classes_code.specs.pz_syntax.Expressions.{Part};
ghost use Rattle.pz_classes_code.specs.pz_syntax.Statements.{receive};
ghost use Rattle.pz_classes_code.specs.pz_syntax.declared.names.Id.{Id};
ghost use Rattle.pz_classes_code.specs.pz_value.declared.value.ClassId.{ClassId};
ghost use Rattle.pz_classes_code.specs.declared.slot.Slot.{Slot as Variable};
ghost use Rattle.pz_classes_code.specs.CodeView as code;
ghost use Rattle.pz_rules.specs.Terms.{leaf};
ghost use Rattle.pz_rules.specs.View.{term_view};
ghost use Rattle.pz_rules.specs.Messages.{variables_of, Judges};
ghost use Rattle.pz_eval.specs.Known.{AreKnown};
ghost use Rattle.pz_part_queries.specs.Standpoints.{Knows, seen_from};
ghost use Rattle.pz_rules.specs.Acting.{IsReceive};

use crate::asking::allowance;
use crate::meanings::tested;
use crate::standpoint::Standpoint;
use pz_classes_code::pz_items::{Items, Shared};
use pz_classes_code::pz_syntax::Pos;
use pz_classes_code::{Code, Slot, StepForm};
use pz_eval::try_condition;
use pz_rules::Term;
use pz_rules::pz_copy::Parcel;
use pz_rules::pz_offer::Trouble;
use pz_rules::pz_state::{FrameId, State};
use std::alloc::{AllocError, Global};

fn slots_of(into: &Option<Shared<Items<Slot>>>) -> &[Slot]
    ensures { result.now ≡ variables_of into.now }
{
    match into {
        None => &[],
        Some(slots) => slots.get().as_slice(),
    }
}

/// A receive at this place, into these variables and with this condition.
fn judge_receive(
    alloc: Global,
    here: &Standpoint<'_>,
    state: &mut State,
    frame: FrameId,
    pos: Pos,
    into: &Option<Shared<Items<Slot>>>,
    condition: &Option<Shared<Code>>,
    parcel: &Parcel,
) -> Result<Result<bool, Trouble>, AllocError>
    requires { AreKnown here.now.classes.now }
    ensures judges { (m : ModelTree) (class port : ℕ) (name : Id) (after : Part Variable ClassId) →
        Knows m here.now → IfOk result (Judges (seen_from m here.now class state.old.held) frame.0
        parcel.now (leaf (receive pos port name into.now
        (option_map code.view condition.now) after))) }
    ensures state { state.new ≡ state.old }
{
    let Some(condition) = condition else {
        return Ok(Ok(true));
    };
    let allowed = allowance(here.limits);
    let into = slots_of(into);
    let outcome = try_condition(
        alloc,
        here.classes,
        state,
        frame,
        here.clock,
        parcel,
        into,
        pos,
        condition.get(),
        allowed,
    )?;
    Ok(tested(here.process, pos, outcome))
}

/// Whether a receive takes the parcel, or the trouble of its condition: where it has a condition, what
/// that comes to once the parcel is unpacked and bound, with no effect. Takes one evaluation, where
/// there is a condition, and the unpacking of the parcel.
pub fn judge(
    alloc: Global,
    here: &Standpoint<'_>,
    state: &mut State,
    frame: FrameId,
    part: &Term,
    parcel: &Parcel,
) -> Result<Result<bool, Trouble>, AllocError>
    requires known { AreKnown here.now.classes.now }
    requires receives { IsReceive (term_view part.now) }
    ensures judges { (m : ModelTree) (class : ℕ) → Knows m here.now →
        IfOk result (Judges (seen_from m here.now class state.old.held) frame.0 parcel.now
        (term_view part.now)) }
    ensures state { state.new ≡ state.old }
{
    let Term::Leaf(step) = part else {
        unreachable!()
    };
    let StepForm::Receive {
        into,
        condition,
        ..
    } = step.form.get()
    else {
        unreachable!()
    };
    judge_receive(alloc, here, state, frame, step.pos, into, condition, parcel)
}
