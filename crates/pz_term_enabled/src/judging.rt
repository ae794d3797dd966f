//! The pairs of sends and receives that fit: which of them are communications. The processes stay as
//! they are, always, and the only error is want of memory.

ghost use Rattle.std.specs.Prelude.{◌≡◌, ℕ, All, IfOk};
ghost use Rattle.pz_classes_code.specs.pz_syntax.Classes.{ModelTree};
ghost use Rattle.pz_bind.specs.pz_classes.CheckedView.{checked_model};
ghost use Rattle.pz_rules.specs.Offers.{IsJudged};
ghost use Rattle.pz_rules.specs.View.{term_view};
ghost use Rattle.pz_term_processes.specs.pz_eval.Known.{AreKnown};
ghost use Rattle.pz_term_processes.specs.pz_part_queries.Standpoints.{Knows, seen_from};
ghost use Rattle.pz_term_processes.specs.Standing.{setting_of, config_of};
ghost use Rattle.pz_term_matching.specs.Matches.{Fits};
ghost use Rattle.pz_term_enabled.specs.Surveyed.{IsReceiver, AreSenders, AreReceivers};
ghost use Rattle.pz_term_enabled.specs.devices.Judged.{HasReceive, JudgesAt, communication_of, OfOne, OfPairs};
ghost use Rattle.pz_term_enabled.specs.devices.Communications.{OfAll};

use pz_bind::pz_classes::Checked;
use pz_rules::pz_copy::Parcel;
use pz_rules::pz_offer::{Place, Trouble};
use pz_rules::pz_state::FrameId;
use pz_rules::{Action, Limits};
use pz_term_matching::{Pair, Receiver, Sender, match_ends};
use pz_term_processes::Process;
use pz_term_processes::pz_part_actions::pz_part_queries;
use pz_term_processes::pz_part_actions::pz_part_queries::{Standpoint, judge, part_at};
use std::alloc::{AllocError, Global};

/// What the receive at this place of a process says to a parcel.
fn judge_part(
    alloc: Global,
    here: &Standpoint<'_>,
    process: &mut Process,
    place: &Place,
    parcel: &Parcel,
) -> Result<Result<bool, Trouble>, AllocError>
    requires known { AreKnown here.now.classes.now }
    requires receives { HasReceive (term_view process.old.term) place.now }
    ensures judges { (m : ModelTree) (class : ℕ) → Knows m here.now →
        IfOk result (JudgesAt (seen_from m here.now class process.old.state.held)
        (term_view process.old.term) place.now parcel.now) }
    ensures unchanged { process.new ≡ process.old }
{
    pz_term_residual::laws::active_parts_may_act();
    // A process stands in no frame.
    let (frame, part) = part_at(&process.term, FrameId(0), place.as_slice());
    judge(alloc, here, &mut process.state, frame, part, parcel)
}

/// What a receive of these processes says to a parcel.
fn judge_receive(
    alloc: Global,
    checked: &Checked,
    limits: Limits,
    clock: u128,
    processes: &mut [Process],
    receiver: &Receiver,
    parcel: &Parcel,
) -> Result<Result<bool, Trouble>, AllocError>
    requires { IsReceiver (setting_of (checked_model checked.now) limits)
        (config_of clock processes.old) receiver.now }
    ensures judged { IfOk result (IsJudged (setting_of (checked_model checked.now) limits)
        (config_of clock processes.old) receiver.now.end parcel.now) }
    ensures unchanged { processes.new ≡ processes.old }
{
    pz_part_queries::laws::one_verdict();
    pz_rules::laws::offered_parts_act();
    let process = receiver.end.process;
    let here = Standpoint {
        classes: checked.classes(),
        limits,
        process,
        clock,
    };
    let receiving = &mut processes[process as usize];
    judge_part(alloc, &here, receiving, &receiver.end.place, parcel)
}

/// The communication of a send and a receive that fit.
fn communication(sender: &Sender, receiver: &Receiver) -> Result<Action, AllocError>
    ensures { IfOk result (λ action. action ≡ communication_of sender.now receiver.now) }
{
    let from = sender.end.copy()?;
    let to = receiver.end.copy()?;
    let message = sender.message.copy()?;
    let parcel = sender.parcel.copy()?;
    Ok(Action::Comm {
        wire: sender.wire,
        sender: from,
        receiver: to,
        message,
        parcel,
    })
}

/// Adds the communication of a pair where the receive takes the parcel. The trouble is that of the
/// condition.
fn add_pair(
    alloc: Global,
    checked: &Checked,
    limits: Limits,
    clock: u128,
    processes: &mut [Process],
    sender: &Sender,
    receiver: &Receiver,
    actions: &mut Vec<Action>,
) -> Result<Option<Trouble>, AllocError>
    requires { IsReceiver (setting_of (checked_model checked.now) limits)
        (config_of clock processes.old) receiver.now }
    ensures judged { IfOk result (OfOne (setting_of (checked_model checked.now) limits)
        (config_of clock processes.old) sender.now receiver.now actions.old.items
        actions.new.items) }
    ensures unchanged { processes.new ≡ processes.old }
{
    match judge_receive(
        alloc,
        checked,
        limits,
        clock,
        processes,
        receiver,
        &sender.parcel,
    )? {
        Ok(true) => {
            actions.push(communication(sender, receiver)?)?;
            Ok(None)
        }
        Ok(false) => Ok(None),
        Err(trouble) => Ok(Some(trouble)),
    }
}

/// Adds the communications of these pairs, in order. The first trouble of a condition ends it.
fn add_pairs(
    alloc: Global,
    checked: &Checked,
    limits: Limits,
    clock: u128,
    processes: &mut [Process],
    senders: &[Sender],
    receivers: &[Receiver],
    pairs: &[Pair],
    actions: &mut Vec<Action>,
) -> Result<Option<Trouble>, AllocError>
    requires receivers { All (IsReceiver (setting_of (checked_model checked.now) limits)
        (config_of clock processes.old)) receivers.now }
    requires fit { All (Fits senders.now receivers.now) pairs.now }
    ensures judged { IfOk result (OfPairs (setting_of (checked_model checked.now) limits)
        (config_of clock processes.old) senders.now receivers.now pairs.now actions.old.items
        actions.new.items) }
    ensures unchanged { processes.new ≡ processes.old }
{
    for pair in pairs {
        let sender = &senders[pair.sender];
        let receiver = &receivers[pair.receiver];
        let trouble = add_pair(
            alloc, checked, limits, clock, processes, sender, receiver, actions,
        )?;
        if trouble.is_some() {
            return Ok(trouble);
        }
    }
    Ok(None)
}

/// Adds the communications of the senders and receivers, in order. The first trouble of a condition
/// ends it.
pub(crate) fn add_communications(
    alloc: Global,
    checked: &Checked,
    limits: Limits,
    clock: u128,
    processes: &mut [Process],
    senders: &[Sender],
    receivers: &[Receiver],
    actions: &mut Vec<Action>,
) -> Result<Option<Trouble>, AllocError>
    requires senders { AreSenders (setting_of (checked_model checked.now) limits)
        (config_of clock processes.old) senders.now }
    requires receivers { AreReceivers (setting_of (checked_model checked.now) limits)
        (config_of clock processes.old) receivers.now }
    ensures judged { IfOk result (OfAll (setting_of (checked_model checked.now) limits)
        (config_of clock processes.old) actions.old.items actions.new.items) }
    ensures unchanged { processes.new ≡ processes.old }
{
    pz_part_queries::laws::one_verdict();
    let pairs = match_ends(alloc, senders, receivers)?;
    add_pairs(
        alloc,
        checked,
        limits,
        clock,
        processes,
        senders,
        receivers,
        pairs.as_slice(),
        actions,
    )
}
