// What one active part adds. The state stays as it is, always, and the only error is want of memory.

ghost use Rattle.std.specs.Prelude.{◌≡◌, ◌<◌, ◌^◌, false, [], ◌∷◌, ℕ, length, OnOk};
ghost use Rattle.pz_classes_code.specs.pz_syntax.Classes.{ModelTree};
ghost use Rattle.pz_classes_code.specs.pz_syntax.Expressions.{Part};
ghost use Rattle.pz_classes_code.specs.pz_syntax.Statements as statements;
ghost use Rattle.pz_classes_code.specs.pz_value.declared.value.ClassId.{ClassId};
ghost use Rattle.pz_classes_code.specs.declared.slot.Slot.{Slot as Variable};
ghost use Rattle.pz_classes_code.specs.StepView.{view};
ghost use Rattle.pz_classes_code.specs.CodeView as code;
ghost use Rattle.pz_rules.specs.Terms as terms;
ghost use Rattle.pz_rules.specs.Settings.{Context};
ghost use Rattle.pz_rules.specs.Messages.{variables_of};
ghost use Rattle.pz_rules.specs.devices.Walk.{here as part_here};
ghost use Rattle.pz_term_processes.specs.pz_eval.Known.{AreKnown};
ghost use Rattle.pz_term_processes.specs.pz_part_queries.Standpoints.{Knows, seen_from};
ghost use Rattle.pz_term_enabled.specs.devices.Walked.{has_begun};
ghost use Rattle.pz_term_enabled.specs.devices.Listings.{Adds, notes_of, nothing, only_does, only_waits, only_troubles, only_receives};

use crate::found::{ActiveReceive, ActiveSend, Doing, Found};
use pz_classes_code::pz_items::{Items, Shared};
use pz_classes_code::pz_syntax::{Id, Pos};
use pz_classes_code::{Code, Slot, Step, StepForm};
use pz_rules::Kind;
use pz_rules::pz_offer::{Place, Trouble};
use pz_rules::pz_state::{FrameId, State};
use pz_term_processes::pz_part_actions::pz_part_queries::{Standpoint, ask_parcel, ask_time};
use std::alloc::{AllocError, Global};

/// A part that can act by itself.
fn note_action(found: &mut Found, place: &Place, kind: Kind, pos: Pos) -> Result<(), AllocError>
    ensures { (a : Context) (f : ℕ) (t : terms.Term) → notes_of a f t ≡ only_does kind pos →
        OnOk result (Adds a place.now (part_here f t ∷ []) found.old found.new) }
{
    let place = place.copy()?;
    found.internal.push(Doing { place, kind, pos })?;
    Ok(())
}

pub(crate) fn note_trouble(
    found: &mut Found,
    place: &Place,
    trouble: Trouble,
) -> Result<(), AllocError>
    ensures { (a : Context) (f : ℕ) (t : terms.Term) → notes_of a f t ≡ only_troubles trouble →
        OnOk result (Adds a place.now (part_here f t ∷ []) found.old found.new) }
{
    found.troubles.push(trouble)?;
    Ok(())
}

/// An active delay of which nothing is left, which can expire.
fn note_elapsed(found: &mut Found, place: &Place, pos: Pos) -> Result<(), AllocError>
    ensures { (a : Context) (f : ℕ) (t : terms.Term) → notes_of a f t ≡ only_waits 0 pos →
        OnOk result (Adds a place.now (part_here f t ∷ []) found.old found.new) }
{
    let place = place.copy()?;
    let kind = Kind::Expire;
    found.internal.push(Doing { place, kind, pos })?;
    found.delays.push(0)?;
    Ok(())
}

/// An active delay of which so much is left.
pub(crate) fn note_left(
    found: &mut Found,
    place: &Place,
    left: u128,
    pos: Pos,
) -> Result<(), AllocError>
    ensures { (a : Context) (f : ℕ) (t : terms.Term) → notes_of a f t ≡ only_waits left pos →
        (has_begun t ≡ false → left < 2 ^ 64) →
        OnOk result (Adds a place.now (part_here f t ∷ []) found.old found.new) }
{
    if left == 0 {
        return note_elapsed(found, place, pos);
    }
    found.delays.push(left)?;
    Ok(())
}

/// A delay that has not begun.
fn note_delay(
    alloc: Global,
    here: &Standpoint<'_>,
    state: &mut State,
    frame: FrameId,
    pos: Pos,
    time: &Code,
    place: &Place,
    found: &mut Found,
) -> Result<(), AllocError>
    requires { AreKnown here.now.classes.now }
    ensures adds { (m : ModelTree) (class : ℕ) → Knows m here.now →
        OnOk result (Adds (seen_from m here.now class state.old.held) place.now
        (part_here frame.0 (terms.leaf (statements.delay pos (code.view time.now))) ∷ []) found.old
        found.new) }
    ensures state { state.new ≡ state.old }
{
    pz_rules::laws::evaluations_are_computed();
    match ask_time(alloc, here, state, frame, pos, time)? {
        Ok(left) => note_left(found, place, left, pos),
        Err(trouble) => note_trouble(found, place, trouble),
    }
}

/// A send.
fn note_send(
    alloc: Global,
    here: &Standpoint<'_>,
    state: &mut State,
    frame: FrameId,
    pos: Pos,
    port: u32,
    name: &Shared<Id>,
    args: &Option<Shared<Items<Code>>>,
    place: &Place,
    found: &mut Found,
) -> Result<(), AllocError>
    requires { AreKnown here.now.classes.now }
    ensures adds { (m : ModelTree) (class : ℕ) (after : Part Variable ClassId) → Knows m here.now →
        OnOk result (Adds (seen_from m here.now class state.old.held) place.now
        (part_here frame.0 (terms.leaf (statements.send pos port name.now
        (code.part_view args.now) after)) ∷ []) found.old found.new) }
    ensures state { state.new ≡ state.old }
{
    pz_rules::laws::evaluations_are_computed();
    match ask_parcel(alloc, here, state, frame, pos, args)? {
        Ok(parcel) => {
            let message = name.get().name.copy()?;
            let place = place.copy()?;
            found.sends.push(ActiveSend {
                place,
                pos,
                port,
                message,
                parcel,
            })?;
            Ok(())
        }
        Err(trouble) => note_trouble(found, place, trouble),
    }
}

/// How many variables a receive binds.
fn count_of(into: &Option<Shared<Items<Slot>>>) -> usize
    ensures { result ≡ length (variables_of into.now) }
{
    match into {
        None => 0,
        Some(slots) => slots.get().len(),
    }
}

/// A receive.
fn note_receive(
    pos: Pos,
    port: u32,
    name: &Shared<Id>,
    count: usize,
    place: &Place,
    found: &mut Found,
) -> Result<(), AllocError>
    ensures { (a : Context) (f : ℕ) (t : terms.Term) →
        notes_of a f t ≡ only_receives pos port name.now.name count →
        OnOk result (Adds a place.now (part_here f t ∷ []) found.old found.new) }
{
    let message = name.get().name.copy()?;
    let place = place.copy()?;
    found.receives.push(ActiveReceive {
        place,
        pos,
        port,
        message,
        count,
    })?;
    Ok(())
}

/// A statement that has not begun.
pub(crate) fn note_step(
    alloc: Global,
    here: &Standpoint<'_>,
    state: &mut State,
    frame: FrameId,
    step: &Step,
    place: &Place,
    found: &mut Found,
) -> Result<(), AllocError>
    requires { AreKnown here.now.classes.now }
    ensures adds { (m : ModelTree) (class : ℕ) → Knows m here.now →
        OnOk result (Adds (seen_from m here.now class state.old.held) place.now
        (part_here frame.0 (terms.leaf (view step.now)) ∷ []) found.old found.new) }
    ensures state { state.new ≡ state.old }
{
    let pos = step.pos;
    match step.form.get() {
        StepForm::Skip => note_action(found, place, Kind::Skip, pos),
        StepForm::Eval(_) => note_action(found, place, Kind::Eval, pos),
        StepForm::Block(_) => note_action(found, place, Kind::Eval, pos),
        StepForm::If(_, _, _) => note_action(found, place, Kind::Test, pos),
        StepForm::While(_, _) => note_action(found, place, Kind::Test, pos),
        StepForm::Call { .. } => note_action(found, place, Kind::Call, pos),
        StepForm::Delay(time) => note_delay(alloc, here, state, frame, pos, time, place, found),
        StepForm::Send {
            port,
            name,
            args,
            ..
        } => note_send(
            alloc, here, state, frame, pos, *port, name, args, place, found,
        ),
        StepForm::Receive {
            port,
            name,
            into,
            ..
        } => note_receive(pos, *port, name, count_of(into), place, found),
        StepForm::Group(_) => Ok(()),
        StepForm::Guard(_, _) => Ok(()),
        StepForm::Par(_) => Ok(()),
        StepForm::Sel(_) => Ok(()),
        StepForm::Abort(_, _) => Ok(()),
        StepForm::Interrupt(_, _) => Ok(()),
    }
}
