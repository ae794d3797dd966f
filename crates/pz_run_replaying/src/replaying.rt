// A trace, line by line.

ghost use Rattle.std.specs.Prelude.{◌≡◌, ◌≤◌, ◌<◌, ◌+◌, ◌^◌, ℕ, suc, List, [], length, IfOk};
ghost use Rattle.pz_classes_openings.specs.OpeningRules.{Opens};
ghost use Rattle.pz_rules.specs.declared.limits.Edition.TheVariants.{Two};
ghost use Rattle.pz_rules.specs.Settings.{Setting};
ghost use Rattle.pz_rules.specs.Clocks.{most_actions};
ghost use Rattle.pz_trace.specs.TraceText.{trace_header};
ghost use Rattle.pz_term_simulator.specs.Simulations.{Starts, setting_in, model_in, limits_in};
ghost use Rattle.pz_term_simulator.specs.devices.Room.{HasRoomFor};
ghost use Rattle.pz_run_replaying.specs.Replays.{TellsLines, IsReplayed};
ghost use Rattle.pz_run_replaying.specs.devices.Readiness.{IsReady, stage_of};
ghost use Rattle.pz_run_replaying.specs.devices.Progress.{Progress, Answers};

use crate::Replayed;
use crate::fronts::{behind, front, front_len};
use crate::judging::{Judged, judge};
use crate::laws::rules_are_known;
use crate::moving::go;
use crate::refusing::{conclude, refuse};
use pz_io::{Halt, Sink, put};
use pz_term_simulator::{Simulator, Steps};
use pz_trace::{form_of, header};
use std::alloc::{AllocError, Global};
use std::sync::ledger::Ledger;

// Goes through the lines of a trace behind its header, of which the first has this number, from 1. The lines of
// the rules are made in the given text.
fn follow<S: Simulator, L: Ledger, W: Sink>(
    alloc: Global,
    sim: &mut S,
    trace: &[u8],
    first: u64,
    line: &mut Vec<u8>,
    steps: &mut Steps<L>,
    out: &mut W,
) -> Result<Replayed, Halt>
    requires ready { IsReady (S.simulation sim.old) }
    requires room { HasRoomFor (length trace.now) (S.simulation sim.old) }
    requires short { first + length trace.now < 2 ^ 64 }
    ensures { (whole : List ℕ) (lines : List (List ℕ)) →
        TellsLines (setting_in (S.simulation sim.old)) →
        Progress (setting_in (S.simulation sim.old)) whole lines
        (stage_of (S.simulation sim.old)) trace.now → first ≡ suc (length lines) →
        Answers (setting_in (S.simulation sim.old)) whole lines (W.state out.old)
        (W.state out.new) (S.simulation sim.new) result }
{
    rules_are_known();
    let mut rest = trace;
    let mut number = first;
    'lines: loop {
        match judge(alloc, sim, rest, line)? {
            Judged::Goes { step, len } => {
                go(sim, step, front(rest, len), steps, out)?;
                rest = behind(rest, len);
                number += 1;
            }
            Judged::Ends { ending, len } => {
                put(out, front(rest, len))?;
                return conclude(alloc, ending, number + 1, behind(rest, len), out);
            }
            Judged::Differs { expected } => return refuse(alloc, number, expected, out),
        }
    }
}

// The first line of a run that a simulator goes through. The only error is want of memory.
fn header_line<S: Simulator>(alloc: Global, sim: &S) -> Result<Vec<u8>, AllocError>
    ensures { IfOk result (λ line. line.items ≡ trace_header (setting_in (S.simulation sim.now))) }
{
    header(alloc, form_of(sim.limits()))
}

// Goes through the lines of a trace.
fn replay_lines<S: Simulator, L: Ledger, W: Sink>(
    alloc: Global,
    sim: &mut S,
    trace: &[u8],
    steps: &mut Steps<L>,
    out: &mut W,
) -> Result<Replayed, Halt>
    requires starts { (setting : Setting) × Starts setting (S.simulation sim.old) }
    requires opens { (limits_in (S.simulation sim.old)).edition ≡ Two →
        Opens (model_in (S.simulation sim.old)) }
    requires few { length trace.now ≤ most_actions }
    ensures { (setting : Setting) → Starts setting (S.simulation sim.old) → TellsLines setting →
        Answers setting trace.now [] (W.state out.old) (W.state out.new)
        (S.simulation sim.new) result }
{
    rules_are_known();
    let _model = sim.checked().model();
    let mut header = header_line(alloc, sim)?;
    let Some(len) = front_len(trace, header.as_slice()) else {
        return refuse(alloc, 1, Some(header), out);
    };
    put(out, header.as_slice())?;
    follow(alloc, sim, behind(trace, len), 2, &mut header, steps, out)
}

/// Replays a trace on a simulator that stands at its start. The trace is accepted exactly where it is the
/// text of a run of the model, with the limits of the simulator; then it is written again, and the
/// simulator stands at the end of that run. Otherwise the lines are written before the first with which the
/// trace begins the text of no run, then the number of that line, and the line that the rules have there,
/// if any; the simulator stands where the lines before have led it.
///
/// Each line is written, in one call of the sink, before the simulator goes on. Takes the time of the run
/// and the length of the trace; nothing of the trace is copied.
///
/// # Errors
///
/// What was written is a front of what is to be written. The simulator stands somewhere in a run, or is
/// broken.
pub fn replay<S: Simulator, L: Ledger, W: Sink>(
    alloc: Global,
    sim: &mut S,
    trace: &[u8],
    steps: &mut Steps<L>,
    out: &mut W,
) -> Result<Replayed, Halt>
    requires starts { (setting : Setting) × Starts setting (S.simulation sim.old) }
    requires opens { (limits_in (S.simulation sim.old)).edition ≡ Two →
        Opens (model_in (S.simulation sim.old)) }
    requires few { length trace.now ≤ most_actions }
    ensures { (setting : Setting) → Starts setting (S.simulation sim.old) → TellsLines setting →
        IsReplayed setting trace.now (S.simulation sim.new) (W.state out.old)
        (W.state out.new) result }
{
    rules_are_known();
    let _model = sim.checked().model();
    replay_lines(alloc, sim, trace, steps, out)
}
