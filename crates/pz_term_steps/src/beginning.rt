// What an active part does, as far as it can still be undone: the mark from before is open, and at a
// trouble all is as it was. After want of memory, which is the only error, nothing is promised of the
// state.

ghost use Rattle.std.specs.Prelude.{◌≡◌, IfOk};
ghost use Rattle.pz_bind.specs.pz_classes.CheckedView.{checked_model};
ghost use Rattle.pz_rules.specs.pz_copy.Parcels.{ParcelView};
ghost use Rattle.pz_rules.specs.InternalActions.{Performs};
ghost use Rattle.pz_rules.specs.Messages.{Hands, Takes};
ghost use Rattle.pz_rules.specs.View.{term_view};
ghost use Rattle.pz_term_processes.specs.pz_part_opening.Homes.{home_view};
ghost use Rattle.pz_term_processes.specs.pz_part_queries.Standpoints.{Knows};
ghost use Rattle.pz_term_processes.specs.pz_part_actions.Fitting.{FitsHere};
ghost use Rattle.pz_term_processes.specs.pz_part_actions.Homes.{seen_home};
ghost use Rattle.pz_term_steps.specs.devices.Deeds.{CanAct, CanSend, CanReceive, CanDo, Leaves, begun_process, IsBegun};

use crate::begun::{Begun, hold};
use pz_rules::pz_copy::Parcel;
use pz_rules::pz_offer::Trouble;
use pz_rules::pz_state::FrameId;
use pz_term_processes::Process;
use pz_term_processes::pz_part_actions::pz_part_opening::Home;
use pz_term_processes::pz_part_actions::pz_part_queries::{Standpoint, part_at};
use pz_term_processes::pz_part_actions::{at_home, done_by, hand, perform, pos_of, take};
use std::alloc::{AllocError, Global};

/// A part acts by itself. Its process is of the class at home, and its term fits it.
pub(crate) fn begin_internal(
    alloc: Global,
    here: &Standpoint<'_>,
    home: &Home<'_>,
    process: &mut Process,
    place: &[usize],
) -> Result<Result<Begun, Trouble>, AllocError>
    requires knows { Knows (checked_model home.now.checked.now) here.now }
    requires can { CanDo CanAct (seen_home here.now home.now process.old.state.held)
        (term_view process.old.term) place.now }
    requires fits { ∥ FitsHere here.now home.now.class (term_view process.old.term) ∥₁ }
    ensures leaves { IfOk result
        (λ begun. Leaves (seen_home here.now home.now process.old.state.held) Performs
        (term_view process.old.term) place.now (begun_process (home_view home.now)
        (term_view process.old.term) place.now process.new.state.held begun)) }
    ensures state { IfOk result (IsBegun process.old.state process.new.state) }
    ensures term { process.new.term ≡ process.old.term }
{
    pz_term_residual::laws::active_parts_may_act();
    pz_rules::laws::offered_parts_act();
    pz_rules::laws::active_parts_fit();
    let point = process.state.mark()?;
    let (frame, part) = part_at(&process.term, FrameId(0), place);
    let pos = pos_of(part);
    let left = perform(alloc, here, home, &mut process.state, frame, part)?;
    Ok(hold(here, home, process, place, point, pos, left))
}

/// A send hands over its parcel.
pub(crate) fn begin_send(
    alloc: Global,
    here: &Standpoint<'_>,
    home: &Home<'_>,
    process: &mut Process,
    place: &[usize],
) -> Result<Result<Begun, Trouble>, AllocError>
    requires knows { Knows (checked_model home.now.checked.now) here.now }
    requires can { (parcel : ParcelView)
        × CanDo (CanSend parcel) (seen_home here.now home.now process.old.state.held)
        (term_view process.old.term) place.now }
    ensures leaves { (parcel : ParcelView) →
        CanDo (CanSend parcel) (seen_home here.now home.now process.old.state.held)
        (term_view process.old.term) place.now → IfOk result
        (λ begun. Leaves (seen_home here.now home.now process.old.state.held)
        (λ a f. Hands a f parcel) (term_view process.old.term) place.now (begun_process
        (home_view home.now) (term_view process.old.term) place.now process.new.state.held
        begun)) }
    ensures state { IfOk result (IsBegun process.old.state process.new.state) }
    ensures term { process.new.term ≡ process.old.term }
{
    pz_term_residual::laws::active_parts_may_act();
    pz_rules::laws::offered_parts_act();
    let point = process.state.mark()?;
    let (frame, part) = part_at(&process.term, FrameId(0), place);
    let pos = pos_of(part);
    let left = hand(alloc, &at_home(here, home), &mut process.state, frame, part)?;
    Ok(hold(here, home, process, place, point, pos, done_by(left)))
}

/// A receive takes this parcel.
pub(crate) fn begin_receive(
    alloc: Global,
    here: &Standpoint<'_>,
    home: &Home<'_>,
    process: &mut Process,
    place: &[usize],
    parcel: &Parcel,
) -> Result<Result<Begun, Trouble>, AllocError>
    requires knows { Knows (checked_model home.now.checked.now) here.now }
    requires can { CanDo CanReceive (seen_home here.now home.now process.old.state.held)
        (term_view process.old.term) place.now }
    ensures leaves { IfOk result
        (λ begun. Leaves (seen_home here.now home.now process.old.state.held)
        (λ a f. Takes a f parcel.now) (term_view process.old.term) place.now (begun_process
        (home_view home.now) (term_view process.old.term) place.now process.new.state.held
        begun)) }
    ensures state { IfOk result (IsBegun process.old.state process.new.state) }
    ensures term { process.new.term ≡ process.old.term }
{
    pz_term_residual::laws::active_parts_may_act();
    pz_rules::laws::offered_parts_act();
    let point = process.state.mark()?;
    let (frame, part) = part_at(&process.term, FrameId(0), place);
    let pos = pos_of(part);
    let left = take(
        alloc,
        &at_home(here, home),
        &mut process.state,
        frame,
        part,
        parcel,
    )?;
    Ok(hold(here, home, process, place, point, pos, done_by(left)))
}
