// The processes before the first step. The only error is want of memory.

ghost use Rattle.std.specs.Prelude.{◌≡◌, ℕ, [], Some, length, slice_get, All, IfOk, MatchOption};
ghost use Rattle.pz_bind.specs.pz_classes.CheckedView.{checked_model};
ghost use Rattle.pz_rules.specs.pz_state.References.{RefersWithin};
ghost use Rattle.pz_bind_levels.specs.Places.{Address};
ghost use Rattle.pz_rules.specs.pz_bind_rules.Nest as nest;
ghost use Rattle.pz_bind.specs.NetView.{HasProcess};
ghost use Rattle.pz_bind.specs.devices.Nets.{IsNet};
ghost use Rattle.pz_rules.specs.declared.limits.Edition.TheVariants.{Two};
ghost use Rattle.pz_rules.specs.CallLaws.{NoRounds};
ghost use Rattle.pz_rules.specs.Starting.{StartsAs, IsStart};
ghost use Rattle.pz_rules.specs.Moments.{IsFirstHigh};
ghost use Rattle.pz_rules.specs.devices.Start.{start_of};
ghost use Rattle.pz_term_processes.specs.Starting.{OnReady, OnTooHigh, StartsLow};
ghost use Rattle.pz_term_processes.specs.devices.Beginnings.{BeginsLow, BeginsHigh};
ghost use Rattle.pz_term_processes.specs.Standing.{setting_of, process_view, config_of, AreProcesses};

use crate::homes::home_at;
use crate::process::Process;
use pz_bind::Net;
use pz_bind::pz_classes::Checked;
use pz_classes_code::pz_value::Value;
use pz_part_actions::pz_part_opening::{open_step, step_within};
use pz_rules::Limits;
use pz_rules::pz_offer::Trouble;
use pz_rules::pz_state::State;
use pz_term_frames::sweep;
use std::alloc::{AllocError, Global};

/// Equal values.
fn copies_of(alloc: Global, values: &[Value]) -> Result<Vec<Value>, AllocError>
    ensures { IfOk result (λ copies. copies.items ≡ values.now) }
{
    let mut copies = Vec::new(alloc);
    for value in values {
        copies.push(value.copy()?)?;
    }
    Ok(copies)
}

/// A process as it begins: the call that the `init` of its class names, opened.
fn first_of(
    alloc: Global,
    checked: &Checked,
    net: &Net,
    limits: Limits,
    process: u32,
) -> Result<Process, AllocError>
    requires of_model { ∥ IsNet (checked_model checked.now) net.now ∥₁ }
    requires rounds { limits.edition ≡ Two → NoRounds (checked_model checked.now) }
    requires there { HasProcess net.now process }
    ensures { IfOk result (λ first. (place : Address) →
        slice_get (nest.processes (checked_model checked.now)) process ≡ Some place →
        StartsAs (setting_of (checked_model checked.now) limits) place (process_view first)) }
{
    pz_rules::pz_classes_rules::laws::sound_classes_fit();
    pz_rules::laws::trees_are_sets();
    let _model = checked.model();
    let Some(call) = checked.classes().init(net.class(process)) else {
        unreachable!()
    };
    let home = home_at(checked, net, limits, process);
    let mut state = State::new(alloc, copies_of(alloc, net.values(process))?);
    let term = open_step(alloc, &home, call, &mut state)?;
    sweep(alloc, &term, &mut state)?;
    Ok(Process { term, state })
}

/// The trouble of a process that begins with a term which is too high: at the place of the call with which
/// it begins. Nothing is built, and no memory is taken.
fn too_high(checked: &Checked, net: &Net, limits: Limits, process: u32) -> Option<Trouble>
    requires of_model { ∥ IsNet (checked_model checked.now) net.now ∥₁ }
    requires rounds { limits.edition ≡ Two → NoRounds (checked_model checked.now) }
    requires there { HasProcess net.now process }
    ensures { MatchOption result
        (BeginsLow (setting_of (checked_model checked.now) limits) process)
        (BeginsHigh (setting_of (checked_model checked.now) limits) process) }
{
    pz_rules::pz_classes_rules::laws::sound_classes_fit();
    pz_rules::laws::trees_are_sets();
    let _model = checked.model();
    let Some(call) = checked.classes().init(net.class(process)) else {
        unreachable!()
    };
    let home = home_at(checked, net, limits, process);
    let most = u64::from(limits.height);
    if step_within(&home, call, most + 1) <= most {
        return None;
    }
    Some(Trouble::High {
        process,
        pos: call.pos,
    })
}

/// The trouble of the first process that begins with a term which is too high.
fn first_too_high(checked: &Checked, net: &Net, limits: Limits) -> Option<Trouble>
    requires of_model { ∥ IsNet (checked_model checked.now) net.now ∥₁ }
    requires rounds { limits.edition ≡ Two → NoRounds (checked_model checked.now) }
    ensures { MatchOption result
        (StartsLow (setting_of (checked_model checked.now) limits))
        (IsFirstHigh (setting_of (checked_model checked.now) limits)
        (start_of (setting_of (checked_model checked.now) limits))) }
{
    for process in 0..net.processes() {
        if let Some(trouble) = too_high(checked, net, limits, process) {
            return Some(trouble);
        }
    }
    None
}

/// All processes as they begin.
fn all_begun(
    alloc: Global,
    checked: &Checked,
    net: &Net,
    limits: Limits,
) -> Result<Vec<Process>, AllocError>
    requires of_model { ∥ IsNet (checked_model checked.now) net.now ∥₁ }
    requires rounds { limits.edition ≡ Two → NoRounds (checked_model checked.now) }
    ensures { IfOk result (λ processes.
        IsStart (setting_of (checked_model checked.now) limits) (config_of 0 processes.items)) }
{
    let mut processes = Vec::new(alloc);
    for process in 0..net.processes() {
        processes.push(first_of(alloc, checked, net, limits, process)?)?;
    }
    Ok(processes)
}

/// How a model starts.
pub enum Started {
    /// The processes as they begin.
    Ready(Vec<Process>),
    /// The first process that is too high is told.
    TooHigh(Trouble),
}

/// The processes of a model as they begin, each with the call that its `init` names, opened, with the
/// values that its parameters are given and all other variables nil; or the trouble of the first that is too
/// high, and then none is built. The only error is want of memory.
///
/// In edition Two no method of the model begins with itself.
pub fn start(
    alloc: Global,
    checked: &Checked,
    net: &Net,
    limits: Limits,
) -> Result<Started, AllocError>
    requires of_model { ∥ IsNet (checked_model checked.now) net.now ∥₁ }
    requires rounds { limits.edition ≡ Two → NoRounds (checked_model checked.now) }
    ensures start { IfOk result (OnReady (λ processes.
        IsStart (setting_of (checked_model checked.now) limits) (config_of 0 processes))) }
    ensures processes { IfOk result (OnReady
        (AreProcesses (setting_of (checked_model checked.now) limits) 0)) }
    ensures high { IfOk result (OnTooHigh
        (IsFirstHigh (setting_of (checked_model checked.now) limits)
        (start_of (setting_of (checked_model checked.now) limits)))) }
{
    pz_rules::laws::what_fits_goes_on();
    pz_rules::laws::start_is_one();
    let _model = checked.model();
    match first_too_high(checked, net, limits) {
        Some(trouble) => Ok(Started::TooHigh(trouble)),
        None => Ok(Started::Ready(all_begun(alloc, checked, net, limits)?)),
    }
}
