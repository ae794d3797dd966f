// The calls on all processes, for those of a vector. The only error is want of memory.

ghost use Rattle.std.specs.Prelude.{◌≡◌, ◌+◌, IfOk, OnOk, OnErr};
ghost use Rattle.pz_bind.specs.pz_classes.CheckedView.{checked_model};
ghost use Rattle.pz_bind.specs.devices.Nets.{IsNet};
ghost use Rattle.pz_rules.specs.declared.limits.Edition.TheVariants.{Two};
ghost use Rattle.pz_rules.specs.CallLaws.{NoRounds};
ghost use Rattle.pz_rules.specs.Offers.{Offers};
ghost use Rattle.pz_rules.specs.Steps.{Next, PassesTo};
ghost use Rattle.pz_rules.specs.Moments.{IsMoment};
ghost use Rattle.pz_rules.specs.Short.{TimesAreShort};
ghost use Rattle.pz_term_processes.specs.Standing.{setting_of, config_of, AreProcesses};
ghost use Rattle.pz_term_enabled.specs.Looking.{AreActionsAt};
ghost use Rattle.pz_term_steps.specs.Stepping.{reached};

use pz_bind::Net;
use pz_bind::pz_classes::Checked;
use pz_rules::pz_offer::Trouble;
use pz_rules::{Action, Limits, Moment};
use pz_term_enabled::{Outlook, look};
use pz_term_processes::Process;
use pz_term_steps::{elapse, step};
use std::alloc::{AllocError, Global};

/// The moment of the processes, and the offers.
pub(crate) fn look_at(
    alloc: Global,
    checked: &Checked,
    net: &Net,
    limits: Limits,
    clock: u128,
    processes: &mut Vec<Process>,
) -> Result<Outlook, AllocError>
    requires of_model { ∥ IsNet (checked_model checked.now) net.now ∥₁ }
    requires processes { ∥ AreProcesses (setting_of (checked_model checked.now) limits) clock
        processes.old.items ∥₁ }
    ensures moment { IfOk result (λ outlook. IsMoment
        (setting_of (checked_model checked.now) limits)
        (config_of clock processes.old.items) outlook.moment) }
    ensures actions { IfOk result (λ outlook. AreActionsAt
        (setting_of (checked_model checked.now) limits)
        (config_of clock processes.old.items) outlook.moment outlook.actions.items) }
    ensures times { OnOk result (TimesAreShort (setting_of (checked_model checked.now) limits)
        (config_of clock processes.old.items)) }
    ensures unchanged { processes.new.items ≡ processes.old.items }
{
    look(alloc, checked, net, limits, clock, processes.as_mut_slice())
}

/// Takes an action that is offered, or says in which trouble it ends.
pub(crate) fn step_at(
    alloc: Global,
    checked: &Checked,
    net: &Net,
    limits: Limits,
    clock: u128,
    processes: &mut Vec<Process>,
    action: &Action,
) -> Result<Result<(), Trouble>, AllocError>
    requires of_model { ∥ IsNet (checked_model checked.now) net.now ∥₁ }
    requires rounds { limits.edition ≡ Two → NoRounds (checked_model checked.now) }
    requires processes { ∥ AreProcesses (setting_of (checked_model checked.now) limits) clock
        processes.old.items ∥₁ }
    requires offered { Offers (setting_of (checked_model checked.now) limits)
        (config_of clock processes.old.items) action.now }
    ensures steps { IfOk result (λ left. Next (setting_of (checked_model checked.now) limits)
        (config_of clock processes.old.items) action.now (reached clock processes.new.items left)) }
    ensures stays { IfOk result (λ left. OnErr left (processes.new.items ≡ processes.old.items)) }
    ensures processes { OnOk result (∥ AreProcesses
        (setting_of (checked_model checked.now) limits) clock processes.new.items ∥₁) }
{
    step(
        alloc,
        checked,
        net,
        limits,
        clock,
        processes.as_mut_slice(),
        action,
    )
}

/// Lets so much time pass.
pub(crate) fn elapse_at(
    alloc: Global,
    checked: &Checked,
    net: &Net,
    limits: Limits,
    clock: u128,
    processes: &mut Vec<Process>,
    time: u128,
) -> Result<(), AllocError>
    requires of_model { ∥ IsNet (checked_model checked.now) net.now ∥₁ }
    requires processes { ∥ AreProcesses (setting_of (checked_model checked.now) limits) clock
        processes.old.items ∥₁ }
    requires moment { IsMoment (setting_of (checked_model checked.now) limits)
        (config_of clock processes.old.items) (Moment.Time time) }
    ensures passes { OnOk result (PassesTo (setting_of (checked_model checked.now) limits)
        (config_of clock processes.old.items) time (config_of (clock + time) processes.new.items)) }
    ensures processes { OnOk result (∥ AreProcesses (setting_of (checked_model checked.now) limits)
        (clock + time) processes.new.items ∥₁) }
{
    elapse(
        alloc,
        checked,
        net,
        limits,
        clock,
        processes.as_mut_slice(),
        time,
    )
}
