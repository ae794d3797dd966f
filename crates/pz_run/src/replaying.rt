// Replays of traces.
ghost use Rattle.std.specs.Prelude.{◌≡◌, ◌-◌, ◌≤◌, ◌<◌, ◌^◌, ℕ, true, length, MatchOption, None};
ghost use Rattle.pz_bind.specs.pz_syntax.Classes.{ModelTree};
ghost use Rattle.pz_bind.specs.pz_classes.CheckedView.{checked_model};
ghost use Rattle.pz_run_output.specs.pz_classes_openings.OpeningRules.{Opens};
ghost use Rattle.pz_run_output.specs.pz_trace.pz_rules.declared.limits.Edition.TheVariants.{Two};
ghost use Rattle.pz_run_output.specs.pz_trace.pz_rules.Settings.{Setting};
ghost use Rattle.pz_run_output.specs.pz_trace.pz_rules.Clocks.{most_actions};
ghost use Rattle.pz_run_output.specs.pz_trace.Forms.{HasHeader};
ghost use Rattle.pz_sim.specs.pz_term_simulator.Simulations.{Starts, model_in, limits_in};
ghost use Rattle.pz_sim.specs.Sims.{simulation_of};
ghost use Rattle.pz_run_output.specs.pz_run_replaying.Replays.{TellsLines, IsReplayed};
ghost use Rattle.pz_run_output.specs.pz_run_lines.pz_run_reading.Models.{IsModelOf};
ghost use Rattle.pz_run_output.specs.Files.{model_file, trace_file};
ghost use Rattle.pz_run_output.specs.Plays.{setting_with};
ghost use Rattle.pz_run_output.specs.Editions.{HasNoHeader, IsOfSecondEdition, OpensFor};
ghost use Rattle.pz_run_output.specs.Output.{PrintsReplay};
ghost use Rattle.pz_run_output.specs.Promises.{CameThrough};
ghost use Rattle.pz_run.specs.HandedOut.{TraceHandsOut, ModelHandsOut, TraceFileHandsOut, left_in, NeverBegun};
ghost use Rattle.pz_run_output.specs.devices.Saying.{Says, Answers};
ghost use Rattle.pz_run.specs.devices.Handing.{Hands, FileHands};
ghost use Rattle.pz_run_output.specs.devices.Reading.{ReadsFile};
ghost use Rattle.pz_run_output.specs.devices.Replaying.{tells_first, ReplaysText, ReplaysFiles};

use crate::finish::Finish;
use crate::starting::start;
use pz_bind::pz_classes::Checked;
use pz_io::{Files, Halt, Sink, read_all};
use pz_run_output::{
    Form, MODEL_LIMIT, Replayed, Status, TRACE_LIMIT, form_told, laws, open_model, read_model,
    refuse_header, replay, say_refused, say_unread,
};
use pz_sim::Sim;
use pz_sim::pz_term_simulator::Steps;
use std::alloc::Global;
use std::marker::Brand;
use std::mem::drop;
use std::sync::ledger::{Blank, Ledger};

/// Replays a trace on a model, each of which is a file. The trace is opened once the model is accepted.
pub fn replay_file<F: Files, W: Sink>(
    alloc: Global,
    model: &str,
    trace: &str,
    units: u64,
    files: &mut F,
    out: &mut W,
) -> Finish
    ensures printed { ReplaysFiles model.now trace.now units (F.state files.old) (F.state files.new)
        (W.state out.old) (W.state out.new) result.status }
    ensures simulator { FileHands (model_file model.now)
        (ModelHandsOut IsModelOf (TraceFileHandsOut (F.state files.old).held trace.now units))
        (F.state files.old) (F.state files.new) result.status (left_in result) }
    ensures unbegun { NeverBegun result.status → result.sim ≡ None }
{
    match read_all(alloc, files, model, MODEL_LIMIT) {
        Ok(text) => replay_text(alloc, text.as_slice(), trace, units, files, out),
        Err(error) => Finish {
            status: say_unread(alloc, error, model, out),
            sim: None,
        },
    }
}

// The same of the text of a model.
fn replay_text<F: Files, W: Sink>(
    alloc: Global,
    text: &[u8],
    trace: &str,
    units: u64,
    files: &mut F,
    out: &mut W,
) -> Finish
    requires { length text.now < 2 ^ 32 - 1 }
    ensures printed { ReplaysText trace.now units (F.state files.old) (F.state files.new)
        (W.state out.old) (W.state out.new) result.status text.now }
    ensures simulator { (F.state files.old).told ≡ true →
        CameThrough (F.state files.old) (F.state files.new) result.status →
        ModelHandsOut IsModelOf (TraceFileHandsOut (F.state files.old).held trace.now units)
        text.now (left_in result) }
    ensures unbegun { NeverBegun result.status → result.sim ≡ None }
{
    laws::traces_are_known();
    laws::one_model();
    match read_model(alloc, text) {
        Ok(checked) => replay_model(alloc, checked, trace, units, files, out),
        Err(error) => Finish {
            status: say_refused(alloc, error, out),
            sim: None,
        },
    }
}

// The same of a model.
fn replay_model<F: Files, W: Sink>(
    alloc: Global,
    checked: Checked,
    trace: &str,
    units: u64,
    files: &mut F,
    out: &mut W,
) -> Finish
    requires { (form : Form) → TellsLines (setting_with (checked_model checked) form units) }
    ensures printed { ReadsFile (trace_file trace.now) (PrintsReplay units (checked_model checked))
        (F.state files.old) (F.state files.new) (W.state out.old) (W.state out.new) result.status }
    ensures simulator { FileHands (trace_file trace.now)
        (TraceHandsOut units (checked_model checked)) (F.state files.old) (F.state files.new)
        result.status (left_in result) }
    ensures unbegun { NeverBegun result.status → result.sim ≡ None }
{
    match read_all(alloc, files, trace, TRACE_LIMIT) {
        Ok(bytes) => replay_trace(alloc, checked, bytes.as_slice(), units, out),
        Err(error) => {
            drop(checked);
            Finish {
                status: say_unread(alloc, error, trace, out),
                sim: None,
            }
        }
    }
}

// Replays these bytes on a model. Their first line tells by which edition of the rules.
fn replay_trace<W: Sink>(
    alloc: Global,
    checked: Checked,
    trace: &[u8],
    units: u64,
    out: &mut W,
) -> Finish
    requires tells { (form : Form) → TellsLines (setting_with (checked_model checked) form units) }
    requires few { length trace.now ≤ most_actions }
    ensures printed { Answers (PrintsReplay units (checked_model checked) trace.now)
        (W.state out.old) (W.state out.new) result.status }
    ensures simulator { Hands (TraceHandsOut units (checked_model checked) trace.now) result.status
        (left_in result) }
    ensures unbegun { NeverBegun result.status → result.sim ≡ None }
{
    laws::headers_differ();
    let told = form_told(trace);
    if is_first(told) {
        replay_form(alloc, checked, Form::One, trace, units, out)
    } else {
        replay_second(alloc, checked, told, trace, units, out)
    }
}

// Whether the first line of a trace tells the first edition.
fn is_first(told: Option<Form>) -> bool
    ensures { result ≡ tells_first told }
{
    match told {
        Some(Form::One) => true,
        Some(Form::Two) | Some(Form::Three { .. }) | None => false,
    }
}

// The same by the second edition, whose models have to open.
fn replay_second<W: Sink>(
    alloc: Global,
    checked: Checked,
    told: Option<Form>,
    trace: &[u8],
    units: u64,
    out: &mut W,
) -> Finish
    requires told { MatchOption told (HasNoHeader trace.now) (λ form. HasHeader form trace.now) }
    requires second { IsOfSecondEdition trace.now }
    requires tells { (form : Form) → TellsLines (setting_with (checked_model checked) form units) }
    requires few { length trace.now ≤ most_actions }
    ensures printed { Answers (PrintsReplay units (checked_model checked) trace.now)
        (W.state out.old) (W.state out.new) result.status }
    ensures simulator { Hands (TraceHandsOut units (checked_model checked) trace.now) result.status
        (left_in result) }
    ensures unbegun { NeverBegun result.status → result.sim ≡ None }
{
    match open_model(alloc, &checked) {
        Ok(()) => replay_told(alloc, checked, told, trace, units, out),
        Err(error) => {
            drop(checked);
            Finish {
                status: say_refused(alloc, error, out),
                sim: None,
            }
        }
    }
}

// The same on a model that opens.
fn replay_told<W: Sink>(
    alloc: Global,
    checked: Checked,
    told: Option<Form>,
    trace: &[u8],
    units: u64,
    out: &mut W,
) -> Finish
    requires told { MatchOption told (HasNoHeader trace.now) (λ form. HasHeader form trace.now) }
    requires opens { Opens (checked_model checked) }
    requires tells { (form : Form) → TellsLines (setting_with (checked_model checked) form units) }
    requires few { length trace.now ≤ most_actions }
    ensures printed { Answers (PrintsReplay units (checked_model checked) trace.now)
        (W.state out.old) (W.state out.new) result.status }
    ensures simulator { Hands (TraceHandsOut units (checked_model checked) trace.now) result.status
        (left_in result) }
    ensures unbegun { NeverBegun result.status → result.sim ≡ None }
{
    match told {
        Some(form) => replay_form(alloc, checked, form, trace, units, out),
        None => {
            drop(checked);
            Finish {
                status: refuse_header(alloc, units, out),
                sim: None,
            }
        }
    }
}

// Replays the bytes of a trace of this form.
fn replay_form<W: Sink>(
    alloc: Global,
    checked: Checked,
    form: Form,
    trace: &[u8],
    units: u64,
    out: &mut W,
) -> Finish
    requires told { HasHeader form trace.now }
    requires asked { OpensFor trace.now (checked_model checked) }
    requires opens { (setting_with (checked_model checked) form units).limits.edition ≡ Two →
        Opens (checked_model checked) }
    requires tells { TellsLines (setting_with (checked_model checked) form units) }
    requires few { length trace.now ≤ most_actions }
    ensures printed { Answers (PrintsReplay units (checked_model checked) trace.now)
        (W.state out.old) (W.state out.new) result.status }
    ensures simulator { Hands (TraceHandsOut units (checked_model checked) trace.now) result.status
        (left_in result) }
    ensures unbegun { NeverBegun result.status → result.sim ≡ None }
{
    match start(alloc, checked, form, units) {
        Ok(sim) => replay_whole(alloc, sim, trace, out),
        Err(_) => Finish {
            status: Status::NoMemory,
            sim: None,
        },
    }
}

// Replays them from the start of a simulator on. The steps that it takes are counted in a ledger of their
// own.
fn replay_from<L: Ledger, W: Sink>(
    alloc: Global,
    sim: &mut Sim,
    trace: &[u8],
    ledger: Blank,
    out: &mut W,
) -> Result<Replayed, Halt>
    requires name { ledger.name ≡ L.name }
    requires parts { ledger.parts ≡ L.parts }
    requires some { 0 < L.parts }
    requires starts { (setting : Setting) × Starts setting (simulation_of sim.old) }
    requires opens { (limits_in (simulation_of sim.old)).edition ≡ Two →
        Opens (model_in (simulation_of sim.old)) }
    requires few { length trace.now ≤ most_actions }
    ensures { (setting : Setting) → Starts setting (simulation_of sim.old) → TellsLines setting →
        IsReplayed setting trace.now (simulation_of sim.new) (W.state out.old)
        (W.state out.new) result }
{
    let mut steps = Steps::<L>::new(ledger);
    replay(alloc, sim, trace, &mut steps, out)
}

// The same, with the status of the replay, and the simulator where it ended.
fn replay_whole<W: Sink>(alloc: Global, mut sim: Sim, trace: &[u8], out: &mut W) -> Finish
    requires starts { (setting : Setting) × Starts setting (simulation_of sim) }
    requires opens { (limits_in (simulation_of sim)).edition ≡ Two →
        Opens (model_in (simulation_of sim)) }
    requires few { length trace.now ≤ most_actions }
    ensures printed { (m : ModelTree) (form : Form) (units : ℕ) → HasHeader form trace.now →
        OpensFor trace.now m → Starts (setting_with m form units) (simulation_of sim) →
        TellsLines (setting_with m form units) →
        Says (PrintsReplay units m trace.now) (W.state out.old) (W.state out.new) result.status }
    ensures simulator { (m : ModelTree) (form : Form) (units : ℕ) → HasHeader form trace.now →
        OpensFor trace.now m → Starts (setting_with m form units) (simulation_of sim) →
        TellsLines (setting_with m form units) →
        Hands (TraceHandsOut units m trace.now) result.status (left_in result) }
    ensures unbegun { NeverBegun result.status → result.sim ≡ None }
{
    let ended = replay_from::<Brand, W>(alloc, &mut sim, trace, Blank::new(1), out);
    Finish {
        status: Status::replayed(ended),
        sim: Some(sim),
    }
}
