//! The survey of all processes.

ghost use Rattle.std.specs.Prelude.{◌≡◌, ◌+◌, IfOk, OnOk};
ghost use Rattle.pz_classes_code.specs.pz_syntax.Classes.{ModelTree};
ghost use Rattle.pz_bind.specs.pz_classes.CheckedView.{checked_model};
ghost use Rattle.pz_bind.specs.NetView.{HasProcess};
ghost use Rattle.pz_bind.specs.devices.Nets.{IsNet};
ghost use Rattle.pz_rules.specs.Configurations.{Config};
ghost use Rattle.pz_term_processes.specs.Standing.{setting_of, config_of, AreProcesses};
ghost use Rattle.pz_term_processes.specs.pz_eval.Known.{AreKnown};
ghost use Rattle.pz_term_enabled.specs.Surveyed.{IsSurveyed};
ghost use Rattle.pz_term_enabled.specs.devices.Below.{SurveyedBelow};
ghost use Rattle.pz_term_enabled.specs.devices.Seen.{IsSeen};

use crate::adding::add_found;
use crate::findings::Survey;
use crate::walking::walk;
use pz_bind::Net;
use pz_bind::pz_classes::Checked;
use pz_rules::Limits;
use pz_term_processes::Process;
use pz_term_processes::pz_part_actions::pz_part_opening::is_done;
use pz_term_processes::pz_part_actions::pz_part_queries::Standpoint;
use std::alloc::{AllocError, Global};

/// Surveys a process, behind those before it. The process stays as it is, always.
fn survey_process(
    alloc: Global,
    here: &Standpoint<'_>,
    net: &Net,
    process: &mut Process,
    survey: &mut Survey,
) -> Result<(), AllocError>
    requires known { AreKnown here.now.classes.now }
    requires there { HasProcess net.now here.now.process }
    ensures surveyed { (m : ModelTree) (c : Config) → IsSeen m c net.now here.now process.old →
        SurveyedBelow (setting_of m here.now.limits) c here.now.process survey.old →
        OnOk result (SurveyedBelow (setting_of m here.now.limits) c
        (here.now.process + 1) survey.new) }
    ensures unchanged { process.new ≡ process.old }
{
    pz_rules::laws::walks_list_what_is_active();
    pz_rules::laws::evaluations_are_computed();
    pz_rules::laws::wires_are_known();
    pz_rules::laws::active_parts_fit();
    let found = walk(alloc, here, &mut process.state, &process.term)?;
    let done = is_done(&process.term);
    add_found(net, here.process, found, done, survey)
}

/// Surveys all processes, behind nothing.
fn survey_all(
    alloc: Global,
    checked: &Checked,
    net: &Net,
    limits: Limits,
    clock: u128,
    processes: &mut [Process],
    survey: &mut Survey,
) -> Result<(), AllocError>
    requires of_model { ∥ IsNet (checked_model checked.now) net.now ∥₁ }
    requires processes { ∥ AreProcesses (setting_of (checked_model checked.now) limits) clock
        processes.old ∥₁ }
    ensures surveyed { SurveyedBelow (setting_of (checked_model checked.now) limits)
        (config_of clock processes.old) 0 survey.old →
        OnOk result (IsSurveyed (setting_of (checked_model checked.now) limits)
        (config_of clock processes.old) survey.new) }
    ensures unchanged { processes.new ≡ processes.old }
{
    let _model = checked.model();
    let classes = checked.classes();
    for number in 0..net.processes() {
        let here = Standpoint {
            classes,
            limits,
            process: number,
            clock,
        };
        let process = &mut processes[number as usize];
        survey_process(alloc, &here, net, process, survey)?;
    }
    Ok(())
}

/// Surveys the processes of a model, which stand at this clock. Time is linear in the processes, their
/// active parts and the evaluations that these ask for. The processes stay as they are, always, and the
/// only error is want of memory.
pub fn survey(
    alloc: Global,
    checked: &Checked,
    net: &Net,
    limits: Limits,
    clock: u128,
    processes: &mut [Process],
) -> Result<Survey, AllocError>
    requires of_model { ∥ IsNet (checked_model checked.now) net.now ∥₁ }
    requires processes { ∥ AreProcesses (setting_of (checked_model checked.now) limits) clock
        processes.old ∥₁ }
    ensures surveyed { IfOk result (IsSurveyed (setting_of (checked_model checked.now) limits)
        (config_of clock processes.old)) }
    ensures unchanged { processes.new ≡ processes.old }
{
    let mut survey = Survey::new(alloc);
    survey_all(alloc, checked, net, limits, clock, processes, &mut survey)?;
    Ok(survey)
}
