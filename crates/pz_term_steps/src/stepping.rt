ghost use Rattle.std.specs.Prelude.{◌≡◌, ◌+◌, ℕ, List, IfOk, OnOk, OnErr};
ghost use Rattle.pz_classes_code.specs.pz_syntax.declared.tokens.Pos.{Pos};
ghost use Rattle.pz_classes_code.specs.pz_syntax.Classes.{ModelTree};
ghost use Rattle.pz_bind.specs.pz_classes.CheckedView.{checked_model};
ghost use Rattle.pz_bind.specs.devices.Nets.{IsNet};
ghost use Rattle.pz_rules.specs.declared.action.Kind.{Kind};
ghost use Rattle.pz_rules.specs.declared.limits.Edition.TheVariants.{Two};
ghost use Rattle.pz_rules.specs.CallLaws.{NoRounds};
ghost use Rattle.pz_rules.specs.Offers.{IsPair, Offers};
ghost use Rattle.pz_rules.specs.Steps.{Next, PassesTo};
ghost use Rattle.pz_rules.specs.Moments.{IsMoment};
ghost use Rattle.pz_rules.specs.View.{term_view};
ghost use Rattle.pz_rules.specs.devices.Passing.{passed};
ghost use Rattle.pz_term_processes.specs.pz_eval.Known.{AreKnown};
ghost use Rattle.pz_term_processes.specs.pz_part_queries.Standpoints.{Knows, seen_from};
ghost use Rattle.pz_term_processes.specs.Standing.{setting_of, config_of, AreProcesses};
ghost use Rattle.pz_term_steps.specs.Stepping.{reached};

use crate::beginning::{begin_internal, begin_receive, begin_send};
use crate::begun::{finish, withdraw};
use pz_bind::Net;
use pz_bind::pz_classes::Checked;
use pz_rules::pz_copy::Parcel;
use pz_rules::pz_offer::{End, Trouble};
use pz_rules::{Action, Limits, Moment, Term};
use pz_term_processes::pz_part_actions::pz_part_queries::Standpoint;
use pz_term_processes::{Process, home_at};
use pz_term_time::pass;
use std::alloc::{AllocError, Global};
use std::mem;

/// An active part of a process acts by itself.
fn act(
    alloc: Global,
    checked: &Checked,
    net: &Net,
    limits: Limits,
    clock: u128,
    processes: &mut [Process],
    at: &End,
) -> Result<Result<(), Trouble>, AllocError>
    requires of_model { ∥ IsNet (checked_model checked.now) net.now ∥₁ }
    requires rounds { limits.edition ≡ Two → NoRounds (checked_model checked.now) }
    requires processes { ∥ AreProcesses (setting_of (checked_model checked.now) limits) clock
        processes.old ∥₁ }
    requires offered { (kind : Kind) × (pos : Pos)
        × Offers (setting_of (checked_model checked.now) limits) (config_of clock processes.old)
        (Action.Internal at.now kind pos) }
    ensures steps { (kind : Kind) (pos : Pos) → IfOk result
        (λ left. Next (setting_of (checked_model checked.now) limits)
        (config_of clock processes.old) (Action.Internal at.now kind pos)
        (reached clock processes.new left)) }
    ensures stays { IfOk result (λ left. OnErr left (processes.new ≡ processes.old)) }
{
    pz_rules::pz_classes_rules::laws::sound_bodies_fit();
    pz_term_residual::laws::active_parts_may_act();
    let _model = checked.model();
    let here = Standpoint {
        classes: checked.classes(),
        limits,
        process: at.process,
        clock,
    };
    let home = home_at(checked, net, limits, at.process);
    let place = at.place.as_slice();
    let process = &mut processes[at.process as usize];
    match begin_internal(alloc, &here, &home, process, place)? {
        Ok(begun) => {
            finish(alloc, &home, process, place, begun)?;
            Ok(Ok(()))
        }
        Err(trouble) => Ok(Err(trouble)),
    }
}

/// Two processes communicate: the sender hands over the parcel, then the receiver takes it. Only when
/// nothing can fail any more does what they did stay.
fn communicate(
    alloc: Global,
    checked: &Checked,
    net: &Net,
    limits: Limits,
    clock: u128,
    processes: &mut [Process],
    sender: &End,
    receiver: &End,
    parcel: &Parcel,
) -> Result<Result<(), Trouble>, AllocError>
    requires of_model { ∥ IsNet (checked_model checked.now) net.now ∥₁ }
    requires rounds { limits.edition ≡ Two → NoRounds (checked_model checked.now) }
    requires pair { (number : ℕ) × (message : List ℕ)
        × IsPair (setting_of (checked_model checked.now) limits)
        (config_of clock processes.old) number sender.now receiver.now message parcel.now }
    ensures steps { (number : ℕ) (message : List ℕ) →
        IfOk result (λ left. Next (setting_of (checked_model checked.now) limits)
        (config_of clock processes.old) (Action.Comm number sender.now receiver.now message
        parcel.now) (reached clock processes.new left)) }
    ensures stays { IfOk result (λ left. OnErr left (processes.new ≡ processes.old)) }
{
    pz_term_residual::laws::active_parts_may_act();
    pz_rules::pz_eval_rules::laws::each_list_has_an_outcome();
    let (from, to) = (sender.process as usize, receiver.process as usize);
    let sends_at = sender.place.as_slice();
    let receives_at = receiver.place.as_slice();
    let here = Standpoint {
        classes: checked.classes(),
        limits,
        process: sender.process,
        clock,
    };
    let sends_home = home_at(checked, net, limits, sender.process);
    let sent = match begin_send(alloc, &here, &sends_home, &mut processes[from], sends_at)? {
        Ok(sent) => sent,
        Err(trouble) => return Ok(Err(trouble)),
    };
    let there = Standpoint {
        process: receiver.process,
        ..here
    };
    let home = home_at(checked, net, limits, receiver.process);
    match begin_receive(
        alloc,
        &there,
        &home,
        &mut processes[to],
        receives_at,
        parcel,
    )? {
        Ok(taken) => {
            finish(alloc, &sends_home, &mut processes[from], sends_at, sent)?;
            finish(alloc, &home, &mut processes[to], receives_at, taken)?;
            Ok(Ok(()))
        }
        Err(trouble) => {
            withdraw(&mut processes[from], sent);
            Ok(Err(trouble))
        }
    }
}

/// Takes an action that is offered at this clock, or says in which trouble it ends; then the processes
/// stay as they are. Time is that of the evaluations that the action asks for, and linear in the terms
/// of the processes that act. The only error is want of memory.
///
/// In edition Two no method of the model begins with itself.
pub fn step(
    alloc: Global,
    checked: &Checked,
    net: &Net,
    limits: Limits,
    clock: u128,
    processes: &mut [Process],
    action: &Action,
) -> Result<Result<(), Trouble>, AllocError>
    requires of_model { ∥ IsNet (checked_model checked.now) net.now ∥₁ }
    requires rounds { limits.edition ≡ Two → NoRounds (checked_model checked.now) }
    requires processes { ∥ AreProcesses (setting_of (checked_model checked.now) limits) clock
        processes.old ∥₁ }
    requires offered { Offers (setting_of (checked_model checked.now) limits)
        (config_of clock processes.old) action.now }
    ensures steps { IfOk result (λ left. Next (setting_of (checked_model checked.now) limits)
        (config_of clock processes.old) action.now (reached clock processes.new left)) }
    ensures stays { IfOk result (λ left. OnErr left (processes.new ≡ processes.old)) }
    ensures processes { OnOk result (∥ AreProcesses
        (setting_of (checked_model checked.now) limits) clock processes.new ∥₁) }
{
    pz_rules::laws::one_next();
    pz_rules::laws::what_fits_goes_on();
    pz_rules::laws::low_terms_stay();
    let _model = checked.model();
    match action {
        Action::Internal { at, .. } => act(alloc, checked, net, limits, clock, processes, at),
        Action::Comm {
            sender,
            receiver,
            parcel,
            ..
        } => communicate(
            alloc, checked, net, limits, clock, processes, sender, receiver, parcel,
        ),
    }
}

/// What is left of a process when so much time passes; its state stays.
fn pass_process(
    alloc: Global,
    here: &Standpoint<'_>,
    process: &mut Process,
    time: u128,
) -> Result<(), AllocError>
    requires { AreKnown here.now.classes.now }
    ensures term { (m : ModelTree) (class : ℕ) → Knows m here.now →
        OnOk result (term_view process.new.term ≡ passed
        (seen_from m here.now class process.old.state.held) time 0 (term_view process.old.term)) }
    ensures state { process.new.state ≡ process.old.state }
{
    let term = mem::replace(&mut process.term, Term::Done);
    process.term = pass(alloc, here, &mut process.state, term, time)?;
    Ok(())
}

/// Lets so much time pass, in clock units, from this clock on: the time that passes there. Time is linear
/// in the terms and in the evaluations that their active parts ask for. The only error is want of memory.
pub fn elapse(
    alloc: Global,
    checked: &Checked,
    net: &Net,
    limits: Limits,
    clock: u128,
    processes: &mut [Process],
    time: u128,
) -> Result<(), AllocError>
    requires of_model { ∥ IsNet (checked_model checked.now) net.now ∥₁ }
    requires processes { ∥ AreProcesses (setting_of (checked_model checked.now) limits) clock
        processes.old ∥₁ }
    requires moment { IsMoment (setting_of (checked_model checked.now) limits)
        (config_of clock processes.old) (Moment.Time time) }
    ensures passes { OnOk result (PassesTo (setting_of (checked_model checked.now) limits)
        (config_of clock processes.old) time (config_of (clock + time) processes.new)) }
    ensures processes { OnOk result (∥ AreProcesses (setting_of (checked_model checked.now) limits)
        (clock + time) processes.new ∥₁) }
{
    pz_rules::laws::wires_are_known();
    pz_rules::laws::least_passes();
    pz_rules::laws::passing_is_computed();
    pz_rules::laws::one_next();
    pz_rules::laws::what_fits_goes_on();
    pz_rules::laws::low_terms_stay();
    let _model = checked.model();
    for number in 0..net.processes() {
        let here = Standpoint {
            classes: checked.classes(),
            limits,
            process: number,
            clock,
        };
        pass_process(alloc, &here, &mut processes[number as usize], time)?;
    }
    Ok(())
}
