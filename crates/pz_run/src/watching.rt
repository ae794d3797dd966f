// Runs that watches judge.
ghost use Rattle.std.specs.Prelude.{◌≡◌, ◌-◌, ◌≤◌, ◌<◌, ◌^◌, ℕ, true, List, [], length, None};
ghost use Rattle.pz_bind.specs.pz_syntax.Classes.{ModelTree};
ghost use Rattle.pz_bind.specs.pz_classes.CheckedView.{checked_model};
ghost use Rattle.pz_run_output.specs.pz_classes_openings.OpeningRules.{Opens};
ghost use Rattle.pz_run_output.specs.pz_trace.pz_rules.declared.limits.Edition.TheVariants.{Two};
ghost use Rattle.pz_run_output.specs.pz_trace.pz_rules.Settings.{Setting};
ghost use Rattle.pz_run_output.specs.pz_trace.pz_rules.Clocks.{most_actions};
ghost use Rattle.pz_sim.specs.pz_term_simulator.Simulations.{Starts, model_in, limits_in};
ghost use Rattle.pz_sim.specs.Sims.{simulation_of};
ghost use Rattle.pz_run_output.specs.pz_lines.Identifiers.{is_identifier};
ghost use Rattle.pz_watch.specs.declared.errors.ReadWatchesError.TheVariants.{NoMemory, Refused};
ghost use Rattle.pz_watch.specs.Files.{NamedFormula, AreWatches, IsRefusedAt};
ghost use Rattle.pz_watch.specs.devices.Standing.{StandForEach};
ghost use Rattle.pz_run_output.specs.pz_env_closing.pz_run_playing.Watched.{PlaysWatched};
ghost use Rattle.pz_run_output.specs.Files.{model_file as file_of_model, watch_file as file_of};
ghost use Rattle.pz_run_output.specs.Plays.{setting_for, policy_for};
ghost use Rattle.pz_run_output.specs.Output.{PrintsJudged};
ghost use Rattle.pz_run_output.specs.Promises.{CameThrough};
ghost use Rattle.pz_run.specs.HandedOut.{RunHandsOut, WatchHandsOut, OpenModelHandsOut, WatchFileHandsOut, left_in, NeverBegun};
ghost use Rattle.pz_run_output.specs.devices.Saying.{Says, Answers};
ghost use Rattle.pz_run.specs.devices.Handing.{Hands, FileHands};
ghost use Rattle.pz_run_output.specs.devices.Reading.{ReadsFile};
ghost use Rattle.pz_run_output.specs.devices.TwoFiles.{AnswersText, AnswersFiles};
ghost use Rattle.pz_run.specs.devices.Judging.{PrintsWatches};

use crate::finish::Finish;
use crate::starting::start;
use pz_bind::pz_classes::Checked;
use pz_bind::pz_items::Items;
use pz_io::{Files, Halt, Sink, read_all};
use pz_run_output::{
    Form, Judged, MODEL_LIMIT, Play, Status, WATCH_LIMIT, laws, play_watched, read_open_model,
    say_made, say_refused, say_unread, watch_refused_line,
};
use pz_sim::Sim;
use pz_sim::pz_term_simulator::Steps;
use pz_watch::{ReadWatchesError, Watch, read_watches};
use std::alloc::Global;
use std::marker::Brand;
use std::mem::drop;
use std::sync::ledger::{Blank, Ledger};

/// Runs a model and judges its run by watches, each of which is a file. The watches are opened once the model
/// is accepted.
pub fn watch_file<F: Files, W: Sink>(
    alloc: Global,
    model: &str,
    watches: &str,
    play: Play,
    files: &mut F,
    out: &mut W,
) -> Finish
    requires { play.limits.steps ≤ most_actions }
    ensures printed { AnswersFiles model.now (file_of watches.now) (PrintsWatches play)
        (F.state files.old) (F.state files.new) (W.state out.old) (W.state out.new) result.status }
    ensures simulator { FileHands (file_of_model model.now)
        (OpenModelHandsOut (WatchFileHandsOut (F.state files.old).held watches.now play))
        (F.state files.old) (F.state files.new) result.status (left_in result) }
    ensures unbegun { NeverBegun result.status → result.sim ≡ None }
{
    match read_all(alloc, files, model, MODEL_LIMIT) {
        Ok(text) => watch_text(alloc, text.as_slice(), watches, play, files, out),
        Err(error) => Finish {
            status: say_unread(alloc, error, model, out),
            sim: None,
        },
    }
}

// The same of the text of a model.
fn watch_text<F: Files, W: Sink>(
    alloc: Global,
    text: &[u8],
    watches: &str,
    play: Play,
    files: &mut F,
    out: &mut W,
) -> Finish
    requires short { length text.now < 2 ^ 32 - 1 }
    requires few { play.limits.steps ≤ most_actions }
    ensures printed { AnswersText (file_of watches.now) (PrintsWatches play) (F.state files.old)
        (F.state files.new) (W.state out.old) (W.state out.new) result.status text.now }
    ensures simulator { (F.state files.old).told ≡ true →
        CameThrough (F.state files.old) (F.state files.new) result.status →
        OpenModelHandsOut (WatchFileHandsOut (F.state files.old).held watches.now play) text.now
        (left_in result) }
    ensures unbegun { NeverBegun result.status → result.sim ≡ None }
{
    laws::one_run();
    pz_watch::laws::files_have_one_answer();
    laws::open_or_refused();
    match read_open_model(alloc, text) {
        Ok(checked) => watch_model(alloc, checked, watches, play, files, out),
        Err(error) => Finish {
            status: say_refused(alloc, error, out),
            sim: None,
        },
    }
}

// The same of a model that opens.
fn watch_model<F: Files, W: Sink>(
    alloc: Global,
    checked: Checked,
    watches: &str,
    play: Play,
    files: &mut F,
    out: &mut W,
) -> Finish
    requires opens { Opens (checked_model checked) }
    requires few { play.limits.steps ≤ most_actions }
    ensures printed { ReadsFile (file_of watches.now) (PrintsJudged play (checked_model checked))
        (F.state files.old) (F.state files.new) (W.state out.old) (W.state out.new) result.status }
    ensures simulator { FileHands (file_of watches.now) (WatchHandsOut play (checked_model checked))
        (F.state files.old) (F.state files.new) result.status (left_in result) }
    ensures unbegun { NeverBegun result.status → result.sim ≡ None }
{
    match read_all(alloc, files, watches, WATCH_LIMIT) {
        Ok(file) => watch_lines(alloc, checked, file.as_slice(), play, out),
        Err(error) => {
            drop(checked);
            Finish {
                status: say_unread(alloc, error, watches, out),
                sim: None,
            }
        }
    }
}

// Judges the run of a model by the watches of this text, or says at which line it is no list of watches.
fn watch_lines<W: Sink>(
    alloc: Global,
    checked: Checked,
    file: &[u8],
    play: Play,
    out: &mut W,
) -> Finish
    requires opens { Opens (checked_model checked) }
    requires few { play.limits.steps ≤ most_actions }
    ensures printed { Answers (PrintsJudged play (checked_model checked) file.now)
        (W.state out.old) (W.state out.new) result.status }
    ensures simulator { Hands (WatchHandsOut play (checked_model checked) file.now) result.status
        (left_in result) }
    ensures unbegun { NeverBegun result.status → result.sim ≡ None }
{
    match read_watches(alloc, file) {
        Ok(watches) => judge_model(alloc, checked, watches, play, out),
        Err(error) => {
            drop(checked);
            Finish {
                status: say_no_watches(alloc, error, out),
                sim: None,
            }
        }
    }
}

// Says at which line a file is no list of watches.
fn say_no_watches<W: Sink>(alloc: Global, error: ReadWatchesError, out: &mut W) -> Status
    ensures printed { (m : ModelTree) (play : Play) (file : List ℕ) →
        ((line : ℕ) → error ≡ Refused line → IsRefusedAt is_identifier file line) →
        Answers (PrintsJudged play m file) (W.state out.old) (W.state out.new) result }
    ensures wanting { error ≡ NoMemory → result ≡ Status.NoMemory }
{
    match error {
        ReadWatchesError::NoMemory => Status::NoMemory,
        ReadWatchesError::Refused(line) => say_made(
            out,
            watch_refused_line(alloc, line),
            Status::WatchRefused,
        ),
    }
}

// Runs the model and judges its run by these watches.
fn judge_model<W: Sink>(
    alloc: Global,
    checked: Checked,
    watches: Items<Watch>,
    play: Play,
    out: &mut W,
) -> Finish
    requires opens { Opens (checked_model checked) }
    requires few { play.limits.steps ≤ most_actions }
    requires stand { (ws : List NamedFormula) × StandForEach watches ws [] }
    ensures printed { (file : List ℕ) (ws : List NamedFormula) →
        AreWatches is_identifier file ws → StandForEach watches ws [] →
        Answers (PrintsJudged play (checked_model checked) file) (W.state out.old)
        (W.state out.new) result.status }
    ensures simulator { Hands (RunHandsOut play (checked_model checked)) result.status
        (left_in result) }
    ensures unbegun { NeverBegun result.status → result.sim ≡ None }
{
    let units = play.limits.units;
    match start(alloc, checked, Form::Three { units }, units) {
        Ok(sim) => judge_whole(alloc, sim, watches, play, out),
        Err(_) => Finish {
            status: Status::NoMemory,
            sim: None,
        },
    }
}

// Plays the run from the start of a simulator on. The steps that it takes are counted in a ledger of their
// own.
fn judge_from<L: Ledger, W: Sink>(
    alloc: Global,
    sim: &mut Sim,
    watches: Items<Watch>,
    play: Play,
    ledger: Blank,
    out: &mut W,
) -> Result<Judged, Halt>
    requires name { ledger.name ≡ L.name }
    requires parts { ledger.parts ≡ L.parts }
    requires some { 0 < L.parts }
    requires starts { (setting : Setting) × Starts setting (simulation_of sim.old) }
    requires opens { (limits_in (simulation_of sim.old)).edition ≡ Two →
        Opens (model_in (simulation_of sim.old)) }
    requires few { play.limits.steps ≤ most_actions }
    requires stand { (ws : List NamedFormula) × StandForEach watches ws [] }
    ensures { (setting : Setting) (ws : List NamedFormula) →
        Starts setting (simulation_of sim.old) → StandForEach watches ws [] →
        PlaysWatched setting (policy_for play) ws (simulation_of sim.new)
        (W.state out.old) (W.state out.new) result }
{
    let Play { choice, limits, .. } = play;
    let mut steps = Steps::<L>::new(ledger);
    play_watched(alloc, sim, choice, limits, watches, &mut steps, out)
}

// The same, with the status of the run, and the simulator where it ended.
fn judge_whole<W: Sink>(
    alloc: Global,
    mut sim: Sim,
    watches: Items<Watch>,
    play: Play,
    out: &mut W,
) -> Finish
    requires starts { (setting : Setting) × Starts setting (simulation_of sim) }
    requires opens { (limits_in (simulation_of sim)).edition ≡ Two →
        Opens (model_in (simulation_of sim)) }
    requires few { play.limits.steps ≤ most_actions }
    requires stand { (ws : List NamedFormula) × StandForEach watches ws [] }
    ensures printed { (m : ModelTree) (file : List ℕ) (ws : List NamedFormula) →
        Starts (setting_for m play) (simulation_of sim) → AreWatches is_identifier file ws →
        StandForEach watches ws [] →
        Says (PrintsJudged play m file) (W.state out.old) (W.state out.new) result.status }
    ensures simulator { (m : ModelTree) → Starts (setting_for m play) (simulation_of sim) →
        Hands (RunHandsOut play m) result.status (left_in result) }
    ensures unbegun { NeverBegun result.status → result.sim ≡ None }
{
    let ended = judge_from::<Brand, W>(alloc, &mut sim, watches, play, Blank::new(1), out);
    Finish {
        status: Status::judged(ended),
        sim: Some(sim),
    }
}
