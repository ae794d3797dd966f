ghost use Rattle.std.specs.Prelude.{◌≡◌, IfOk, OnOk};
ghost use Rattle.pz_bind.specs.pz_classes.CheckedView.{checked_model};
ghost use Rattle.pz_bind.specs.devices.Nets.{IsNet};
ghost use Rattle.pz_rules.specs.Settings.{Setting};
ghost use Rattle.pz_rules.specs.Configurations.{Config};
ghost use Rattle.pz_rules.specs.Heights.{IsLow};
ghost use Rattle.pz_rules.specs.Moments.{IsMoment};
ghost use Rattle.pz_rules.specs.Short.{TimesAreShort};
ghost use Rattle.pz_term_processes.specs.Standing.{setting_of, config_of, AreProcesses};
ghost use Rattle.pz_term_enabled.specs.Surveyed.{IsSurveyed};
ghost use Rattle.pz_term_enabled.specs.Looking.{AreActionsAt};
ghost use Rattle.pz_term_enabled.specs.devices.Deciding.{Decides, calm_moment};

use crate::findings::Survey;
use crate::judging::add_communications;
use crate::surveying::survey;
use pz_bind::Net;
use pz_bind::pz_classes::Checked;
use pz_rules::pz_offer::Trouble;
use pz_rules::{Action, Limits, Moment};
use pz_term_processes::Process;
use std::alloc::{AllocError, Global};
use std::mem;

/// What may happen next, and the actions to choose from.
#[derive(Drop)]
pub struct Outlook {
    pub moment: Moment,
    /// The offers in their order, none unless the moment is `Actions`.
    pub actions: Vec<Action>,
}

/// The first trouble of what parts are asked, else that of a condition; where there is none, the
/// communications stand behind the internal actions.
fn find_trouble(
    alloc: Global,
    checked: &Checked,
    limits: Limits,
    clock: u128,
    processes: &mut [Process],
    found: &mut Survey,
) -> Result<Option<Trouble>, AllocError>
    requires { IsSurveyed (setting_of (checked_model checked.now) limits)
        (config_of clock processes.old) found.old }
    ensures decides { IfOk result (Decides (setting_of (checked_model checked.now) limits)
        (config_of clock processes.old) found.new) }
    ensures unchanged { processes.new ≡ processes.old }
{
    if found.trouble.is_some() {
        return Ok(found.trouble);
    }
    add_communications(
        alloc,
        checked,
        limits,
        clock,
        processes,
        found.senders.as_slice(),
        found.receivers.as_slice(),
        &mut found.internal,
    )
}

/// The moment where there is no trouble.
fn calm_moment(offers: usize, least: Option<u128>, done: bool) -> Moment
    ensures { result ≡ calm_moment offers least done }
{
    if offers > 0 {
        return Moment::Actions(offers as u64);
    }
    match least {
        Some(left) => Moment::Time(left),
        None if done => Moment::Finished,
        None => Moment::Deadlock,
    }
}

/// The moment where no term is too high, with the actions that are offered, which are taken out of what
/// was found. Takes no memory.
fn decide(alloc: Global, found: &mut Survey, trouble: Option<Trouble>) -> Outlook
    ensures moment { (setting : Setting) (c : Config) → IsLow setting c →
        Decides setting c found.old trouble → IsMoment setting c result.moment }
    ensures actions { (setting : Setting) (c : Config) → Decides setting c found.old trouble →
        AreActionsAt setting c result.moment result.actions.items }
{
    pz_rules::laws::one_list_of_offers();
    if let Some(trouble) = trouble {
        return Outlook {
            moment: Moment::Faulty(trouble),
            actions: Vec::new(alloc),
        };
    }
    let actions = mem::replace(&mut found.internal, Vec::new(alloc));
    let moment = calm_moment(actions.len(), found.least, found.done);
    Outlook { moment, actions }
}

/// The moment of the processes of a model at this clock, and the offers. Time is linear in the
/// processes, their active parts, the evaluations that these ask for, and the pairs of sends and
/// receives that fit, but for a logarithm. The processes stay as they are, always, and the only error is
/// want of memory.
pub fn look(
    alloc: Global,
    checked: &Checked,
    net: &Net,
    limits: Limits,
    clock: u128,
    processes: &mut [Process],
) -> Result<Outlook, AllocError>
    requires of_model { ∥ IsNet (checked_model checked.now) net.now ∥₁ }
    requires processes { ∥ AreProcesses (setting_of (checked_model checked.now) limits) clock
        processes.old ∥₁ }
    ensures moment { IfOk result (λ outlook. IsMoment
        (setting_of (checked_model checked.now) limits)
        (config_of clock processes.old) outlook.moment) }
    ensures actions { IfOk result (λ outlook. AreActionsAt
        (setting_of (checked_model checked.now) limits)
        (config_of clock processes.old) outlook.moment outlook.actions.items) }
    ensures times { OnOk result (TimesAreShort (setting_of (checked_model checked.now) limits)
        (config_of clock processes.old)) }
    ensures unchanged { processes.new ≡ processes.old }
{
    let mut found = survey(alloc, checked, net, limits, clock, processes)?;
    let trouble = find_trouble(alloc, checked, limits, clock, processes, &mut found)?;
    Ok(decide(alloc, &mut found, trouble))
}
