// Runs that a script drives.
ghost use Rattle.std.specs.Prelude.{◌≡◌, ◌-◌, ◌≤◌, ◌<◌, ◌^◌, ℕ, true, List, length, Some, None};
ghost use Rattle.pz_bind.specs.pz_syntax.Classes.{ModelTree};
ghost use Rattle.pz_bind.specs.pz_classes.CheckedView.{checked_model};
ghost use Rattle.pz_run_output.specs.pz_classes_openings.OpeningRules.{Opens};
ghost use Rattle.pz_run_output.specs.pz_trace.pz_rules.declared.limits.Edition.TheVariants.{Two};
ghost use Rattle.pz_run_output.specs.pz_trace.pz_rules.Settings.{Setting};
ghost use Rattle.pz_run_output.specs.pz_trace.pz_rules.Clocks.{most_actions};
ghost use Rattle.pz_run_output.specs.pz_env_closing.pz_env_script.declared.errors.ReadScriptError.TheVariants.{Malformed};
ghost use Rattle.pz_run_output.specs.pz_env_closing.pz_env_script.Scripts.{IsScript};
ghost use Rattle.pz_run_output.specs.pz_env_closing.pz_env_rules.Text.{drive_header};
ghost use Rattle.pz_run_output.specs.pz_env_closing.pz_env.declared.error.CloseError.TheVariants.{Refused};
ghost use Rattle.pz_sim.specs.pz_term_simulator.Simulations.{Starts, model_in, limits_in};
ghost use Rattle.pz_sim.specs.Sims.{simulation_of};
ghost use Rattle.pz_run_output.specs.pz_env_closing.pz_run_playing.Playing.{PlaysUnder};
ghost use Rattle.pz_run_output.specs.Limits.{model_limit};
ghost use Rattle.pz_run_output.specs.Files.{model_file as file_of_model, script_file as file_of};
ghost use Rattle.pz_run_output.specs.Plays.{setting_for, policy_for};
ghost use Rattle.pz_run_output.specs.Scripts.{IsScriptRefused};
ghost use Rattle.pz_run_output.specs.Output.{PrintsDriven};
ghost use Rattle.pz_run_output.specs.Promises.{CameThrough};
ghost use Rattle.pz_run.specs.HandedOut.{RunHandsOut, DriveHandsOut, OpenModelHandsOut, ScriptFileHandsOut, left_in, NeverBegun};
ghost use Rattle.pz_run_output.specs.devices.Saying.{Says, Answers};
ghost use Rattle.pz_run.specs.devices.Handing.{Hands, FileHands};
ghost use Rattle.pz_run_output.specs.devices.Reading.{ReadsFile};
ghost use Rattle.pz_run_output.specs.devices.TwoFiles.{AnswersText, AnswersFiles};
ghost use Rattle.pz_run.specs.devices.Driving.{IsSmallOpen, PrintsScript, PrintsClosedRun};

use crate::finish::Finish;
use crate::starting::start;
use pz_bind::pz_classes::Checked;
use pz_io::{Files, Halt, Sink, read_all};
use pz_run_output::{
    CloseError, Finale, Form, MODEL_LIMIT, Play, ReadScriptError, SCRIPT_LIMIT, Script, Status,
    close_checked, drive_header, laws, play_under, read_open_model, say_made, say_refused,
    say_unread, script_refused_line,
};
use pz_sim::Sim;
use pz_sim::pz_term_simulator::Steps;
use std::alloc::Global;
use std::marker::Brand;
use std::mem::drop;
use std::sync::ledger::{Blank, Ledger};

/// Runs a model whose open ends are driven by a script, each of which is a file. The script is opened once
/// the model is accepted.
pub fn drive_file<F: Files, W: Sink>(
    alloc: Global,
    model: &str,
    script: &str,
    play: Play,
    files: &mut F,
    out: &mut W,
) -> Finish
    requires few { play.limits.steps ≤ most_actions }
    requires units { 1 ≤ play.limits.units }
    ensures printed { AnswersFiles model.now (file_of script.now) (PrintsScript play)
        (F.state files.old) (F.state files.new) (W.state out.old) (W.state out.new) result.status }
    ensures simulator { FileHands (file_of_model model.now)
        (OpenModelHandsOut (ScriptFileHandsOut (F.state files.old).held script.now play))
        (F.state files.old) (F.state files.new) result.status (left_in result) }
    ensures unbegun { NeverBegun result.status → result.sim ≡ None }
{
    match read_all(alloc, files, model, MODEL_LIMIT) {
        Ok(text) => drive_text(alloc, text.as_slice(), script, play, files, out),
        Err(error) => Finish {
            status: say_unread(alloc, error, model, out),
            sim: None,
        },
    }
}

// The same of the text of a model.
fn drive_text<F: Files, W: Sink>(
    alloc: Global,
    text: &[u8],
    script: &str,
    play: Play,
    files: &mut F,
    out: &mut W,
) -> Finish
    requires short { length text.now ≤ model_limit }
    requires few { play.limits.steps ≤ most_actions }
    requires units { 1 ≤ play.limits.units }
    ensures printed { AnswersText (file_of script.now) (PrintsScript play) (F.state files.old)
        (F.state files.new) (W.state out.old) (W.state out.new) result.status text.now }
    ensures simulator { (F.state files.old).told ≡ true →
        CameThrough (F.state files.old) (F.state files.new) result.status →
        OpenModelHandsOut (ScriptFileHandsOut (F.state files.old).held script.now play) text.now
        (left_in result) }
    ensures unbegun { NeverBegun result.status → result.sim ≡ None }
{
    laws::driven_runs_end_once();
    laws::texts_have_one_answer();
    laws::open_or_refused();
    match read_open_model(alloc, text) {
        Ok(checked) => drive_model(alloc, checked, script, play, files, out),
        Err(error) => Finish {
            status: say_refused(alloc, error, out),
            sim: None,
        },
    }
}

// The same of a model that opens.
fn drive_model<F: Files, W: Sink>(
    alloc: Global,
    checked: Checked,
    script: &str,
    play: Play,
    files: &mut F,
    out: &mut W,
) -> Finish
    requires model { IsSmallOpen (checked_model checked) }
    requires few { play.limits.steps ≤ most_actions }
    requires units { 1 ≤ play.limits.units }
    ensures printed { ReadsFile (file_of script.now) (PrintsDriven play (checked_model checked))
        (F.state files.old) (F.state files.new) (W.state out.old) (W.state out.new) result.status }
    ensures simulator { FileHands (file_of script.now) (DriveHandsOut play (checked_model checked))
        (F.state files.old) (F.state files.new) result.status (left_in result) }
    ensures unbegun { NeverBegun result.status → result.sim ≡ None }
{
    match read_all(alloc, files, script, SCRIPT_LIMIT) {
        Ok(file) => drive_lines(alloc, checked, file.as_slice(), play, out),
        Err(error) => {
            drop(checked);
            Finish {
                status: say_unread(alloc, error, script, out),
                sim: None,
            }
        }
    }
}

// Runs a model that is driven by the script of this text, or says at which line that is none.
fn drive_lines<W: Sink>(
    alloc: Global,
    checked: Checked,
    file: &[u8],
    play: Play,
    out: &mut W,
) -> Finish
    requires model { IsSmallOpen (checked_model checked) }
    requires few { play.limits.steps ≤ most_actions }
    requires units { 1 ≤ play.limits.units }
    ensures printed { Answers (PrintsDriven play (checked_model checked) file.now)
        (W.state out.old) (W.state out.new) result.status }
    ensures simulator { Hands (DriveHandsOut play (checked_model checked) file.now) result.status
        (left_in result) }
    ensures unbegun { NeverBegun result.status → result.sim ≡ None }
{
    match Script::read(alloc, file) {
        Ok(script) => drive_script(alloc, checked, script, play, out),
        Err(error) => {
            drop(checked);
            Finish {
                status: say_no_script(alloc, malformed_line(error), out),
                sim: None,
            }
        }
    }
}

// Runs a model that is driven by this script, or says from which line on that cannot drive it.
fn drive_script<W: Sink>(
    alloc: Global,
    checked: Checked,
    script: Script,
    play: Play,
    out: &mut W,
) -> Finish
    requires model { IsSmallOpen (checked_model checked) }
    requires few { play.limits.steps ≤ most_actions }
    requires units { 1 ≤ play.limits.units }
    ensures printed { (file : List ℕ) → IsScript file script →
        Answers (PrintsDriven play (checked_model checked) file) (W.state out.old)
        (W.state out.new) result.status }
    ensures simulator { (file : List ℕ) → IsScript file script →
        Hands (DriveHandsOut play (checked_model checked) file) result.status (left_in result) }
    ensures unbegun { NeverBegun result.status → result.sim ≡ None }
{
    laws::closed_runs_are_driven();
    let closed = close_checked(alloc, &checked, &script);
    drop(checked);
    drop(script);
    match closed {
        Ok(closed) => drive_closed(alloc, closed, play, out),
        Err(error) => Finish {
            status: say_no_script(alloc, unfit_line(error), out),
            sim: None,
        },
    }
}

// The line at which a text is no script.
fn malformed_line(error: ReadScriptError) -> Option<u32>
    ensures { (line : ℕ) → result ≡ Some line → error ≡ Malformed line }
{
    match error {
        ReadScriptError::Malformed { line } => Some(line),
        ReadScriptError::NoMemory => None,
    }
}

// The line from which on a script cannot drive a system.
fn unfit_line(error: CloseError) -> Option<u32>
    ensures { (line : ℕ) → result ≡ Some line → error ≡ Refused line }
{
    match error {
        CloseError::Refused { line } => Some(line),
        CloseError::NoMemory => None,
    }
}

// Says which line of a script is to blame; none is where memory was wanting.
fn say_no_script<W: Sink>(alloc: Global, line: Option<u32>, out: &mut W) -> Status
    ensures printed { (m : ModelTree) (play : Play) (file : List ℕ) →
        ((number : ℕ) → line ≡ Some number → IsScriptRefused m file number) →
        Answers (PrintsDriven play m file) (W.state out.old) (W.state out.new) result }
    ensures wanting { line ≡ None → result ≡ Status.NoMemory }
{
    match line {
        None => Status::NoMemory,
        Some(number) => say_made(
            out,
            script_refused_line(alloc, number),
            Status::ScriptRefused,
        ),
    }
}

// Runs a closed model, and prints the text of its run as that of a driven one.
fn drive_closed<W: Sink>(alloc: Global, closed: Checked, play: Play, out: &mut W) -> Finish
    requires opens { Opens (checked_model closed) }
    requires few { play.limits.steps ≤ most_actions }
    ensures printed { Answers (PrintsClosedRun play (checked_model closed)) (W.state out.old)
        (W.state out.new) result.status }
    ensures simulator { Hands (RunHandsOut play (checked_model closed)) result.status
        (left_in result) }
    ensures unbegun { NeverBegun result.status → result.sim ≡ None }
{
    let units = play.limits.units;
    match start(alloc, closed, Form::Three { units }, units) {
        Ok(sim) => drive_whole(alloc, sim, play, out),
        Err(_) => Finish {
            status: Status::NoMemory,
            sim: None,
        },
    }
}

// Plays the run from the start of a simulator on. The steps that it takes are counted in a ledger of their
// own.
fn drive_from<L: Ledger, W: Sink>(
    alloc: Global,
    sim: &mut Sim,
    play: Play,
    ledger: Blank,
    out: &mut W,
) -> Result<Finale, Halt>
    requires name { ledger.name ≡ L.name }
    requires parts { ledger.parts ≡ L.parts }
    requires some { 0 < L.parts }
    requires starts { (setting : Setting) × Starts setting (simulation_of sim.old) }
    requires opens { (limits_in (simulation_of sim.old)).edition ≡ Two →
        Opens (model_in (simulation_of sim.old)) }
    requires few { play.limits.steps ≤ most_actions }
    ensures { (setting : Setting) → Starts setting (simulation_of sim.old) →
        PlaysUnder setting (policy_for play) (drive_header play.limits.units)
        (simulation_of sim.new) (W.state out.old) (W.state out.new) result }
{
    let Play { choice, limits, .. } = play;
    let header = drive_header(alloc, limits.units);
    let mut steps = Steps::<L>::new(ledger);
    play_under(alloc, sim, header, choice, limits, &mut steps, out)
}

// The same, with the status of the run, and the simulator where it ended.
fn drive_whole<W: Sink>(alloc: Global, mut sim: Sim, play: Play, out: &mut W) -> Finish
    requires starts { (setting : Setting) × Starts setting (simulation_of sim) }
    requires opens { (limits_in (simulation_of sim)).edition ≡ Two →
        Opens (model_in (simulation_of sim)) }
    requires few { play.limits.steps ≤ most_actions }
    ensures printed { (m : ModelTree) → Starts (setting_for m play) (simulation_of sim) →
        Says (PrintsClosedRun play m) (W.state out.old) (W.state out.new) result.status }
    ensures simulator { (m : ModelTree) → Starts (setting_for m play) (simulation_of sim) →
        Hands (RunHandsOut play m) result.status (left_in result) }
    ensures unbegun { NeverBegun result.status → result.sim ≡ None }
{
    let ended = drive_from::<Brand, W>(alloc, &mut sim, play, Blank::new(1), out);
    Finish {
        status: Status::played(ended),
        sim: Some(sim),
    }
}
