// Runs of models.
ghost use Rattle.std.specs.Prelude.{◌≡◌, ◌≤◌, ◌<◌, None};
ghost use Rattle.pz_bind.specs.pz_syntax.Classes.{ModelTree};
ghost use Rattle.pz_bind.specs.pz_classes.CheckedView.{checked_model};
ghost use Rattle.pz_run_output.specs.pz_classes_openings.OpeningRules.{Opens};
ghost use Rattle.pz_run_output.specs.pz_trace.pz_rules.declared.limits.Edition.TheVariants.{Two};
ghost use Rattle.pz_run_output.specs.pz_trace.pz_rules.Settings.{Setting};
ghost use Rattle.pz_run_output.specs.pz_trace.pz_rules.Clocks.{most_actions};
ghost use Rattle.pz_sim.specs.pz_term_simulator.Simulations.{Starts, model_in, limits_in};
ghost use Rattle.pz_sim.specs.Sims.{simulation_of};
ghost use Rattle.pz_run_output.specs.pz_env_closing.pz_run_playing.Playing.{Plays};
ghost use Rattle.pz_run_output.specs.Plays.{told_of, setting_for, policy_for};
ghost use Rattle.pz_run_output.specs.Output.{PrintsRun};
ghost use Rattle.pz_run.specs.HandedOut.{RunHandsOut, left_in, NeverBegun};
ghost use Rattle.pz_run_output.specs.devices.Saying.{Says, Answers};
ghost use Rattle.pz_run.specs.devices.Handing.{Hands};

use crate::finish::Finish;
use crate::starting::start;
use pz_bind::pz_classes::Checked;
use pz_io::{Halt, Sink};
use pz_run_output::{Finale, Form, Play, Status, Telling, play_menu, play_summary, play_trace};
use pz_sim::Sim;
use pz_sim::pz_term_simulator::Steps;
use std::alloc::Global;
use std::marker::Brand;
use std::sync::ledger::{Blank, Ledger};

// Plays the run from the start of a simulator on, and prints what is told of it. The steps that it takes
// are counted in a ledger of their own.
fn play_from<L: Ledger, W: Sink>(
    alloc: Global,
    sim: &mut Sim,
    play: Play,
    ledger: Blank,
    out: &mut W,
) -> Result<Finale, Halt>
    requires name { ledger.name ≡ L.name }
    requires parts { ledger.parts ≡ L.parts }
    requires some { 0 < L.parts }
    requires starts { (setting : Setting) × Starts setting (simulation_of sim.old) }
    requires opens { (limits_in (simulation_of sim.old)).edition ≡ Two →
        Opens (model_in (simulation_of sim.old)) }
    requires few { play.limits.steps ≤ most_actions }
    ensures { (setting : Setting) → Starts setting (simulation_of sim.old) →
        Plays setting (policy_for play) (told_of play.telling) (simulation_of sim.new)
        (W.state out.old) (W.state out.new) result }
{
    let Play {
        choice,
        limits,
        telling,
    } = play;
    let mut steps = Steps::<L>::new(ledger);
    match telling {
        Telling::Trace => play_trace(alloc, sim, choice, limits, &mut steps, out),
        Telling::Summary => play_summary(alloc, sim, choice, limits, &mut steps, out),
        Telling::Menu => play_menu(alloc, sim, choice, limits, &mut steps, out),
    }
}

// The same, with the status of the run, and the simulator where it ended.
fn play_whole<W: Sink>(alloc: Global, mut sim: Sim, play: Play, out: &mut W) -> Finish
    requires starts { (setting : Setting) × Starts setting (simulation_of sim) }
    requires opens { (limits_in (simulation_of sim)).edition ≡ Two →
        Opens (model_in (simulation_of sim)) }
    requires few { play.limits.steps ≤ most_actions }
    ensures printed { (m : ModelTree) → Starts (setting_for m play) (simulation_of sim) →
        Says (PrintsRun play m) (W.state out.old) (W.state out.new) result.status }
    ensures simulator { (m : ModelTree) → Starts (setting_for m play) (simulation_of sim) →
        Hands (RunHandsOut play m) result.status (left_in result) }
    ensures unbegun { NeverBegun result.status → result.sim ≡ None }
{
    let ended = play_from::<Brand, W>(alloc, &mut sim, play, Blank::new(1), out);
    Finish {
        status: Status::played(ended),
        sim: Some(sim),
    }
}

/// Runs the model, prints what is told of its run, and gives the status of the run, and the simulator
/// where it ended.
pub fn run_model<W: Sink>(alloc: Global, checked: Checked, play: Play, out: &mut W) -> Finish
    requires opens { Opens (checked_model checked) }
    requires few { play.limits.steps ≤ most_actions }
    ensures printed { Answers (PrintsRun play (checked_model checked)) (W.state out.old)
        (W.state out.new) result.status }
    ensures simulator { Hands (RunHandsOut play (checked_model checked)) result.status
        (left_in result) }
    ensures unbegun { NeverBegun result.status → result.sim ≡ None }
{
    let units = play.limits.units;
    match start(alloc, checked, Form::Three { units }, units) {
        Ok(sim) => play_whole(alloc, sim, play, out),
        Err(_) => Finish {
            status: Status::NoMemory,
            sim: None,
        },
    }
}
