// What is written of a run.

ghost use Rattle.std.specs.Prelude.{◌≡◌, ◌<◌, ℕ, List, IfOk, OnOk};
ghost use Rattle.std.specs.Result.{result_err};
ghost use Rattle.pz_io.specs.Writing.{Wrote};
ghost use Rattle.pz_rules.specs.declared.action.Action.{Action as TheAction};
ghost use Rattle.pz_rules.specs.Settings.{Setting};
ghost use Rattle.pz_rules.specs.Configurations.{Config};
ghost use Rattle.pz_rules.specs.Runs.{Standing};
ghost use Rattle.pz_watch_points.specs.pz_trace.Lines as trace_lines;
ghost use Rattle.pz_watch_points.specs.pz_trace.TraceText.{trace_header};
ghost use Rattle.pz_term_simulator.specs.Simulations.{IsMomentOf, AreOffersOf, stands};
ghost use Rattle.pz_run_playing.specs.Endings as endings;
ghost use Rattle.pz_run_playing.specs.Endings.{ending_of};
ghost use Rattle.pz_run_playing.specs.Summaries.{summary_of};
ghost use Rattle.pz_run_playing.specs.Menus as menus;
ghost use Rattle.pz_run_playing.specs.Menus.{offers_text};
ghost use Rattle.pz_term_simulator.specs.Simulations.{setting_in, model_in, clock_in, IsOffer};
ghost use Rattle.pz_run_playing.specs.devices.Rests.{IsTroubledIn};

use crate::Finale;
use crate::laws::rules_are_known;
use crate::lines::{last_line, offer_line, summary_line};
use crate::playing::Played;
use pz_io::{Halt, Sink, put};
use pz_term_simulator::{Action, Moment, Simulator};
use pz_watch_points::pz_trace::{form_of, header, put_action_line, put_time_line};
use std::alloc::{AllocError, Global};

/// The first line of the trace of a run that a simulator goes through. The only error is want of memory.
pub(crate) fn header_line<S: Simulator>(alloc: Global, sim: &S) -> Result<Vec<u8>, AllocError>
    ensures { IfOk result (λ line. line.items ≡ trace_header (setting_in (S.simulation sim.now))) }
{
    header(alloc, form_of(sim.limits()))
}

/// Writes the first line, unless it is empty or memory was wanting for it.
pub(crate) fn tell_header<W: Sink>(
    header: Result<Vec<u8>, AllocError>,
    out: &mut W,
) -> Result<(), Halt>
    ensures { (text : List ℕ) → IfOk header (λ line. line.items ≡ text) →
        Wrote (W.state out.old) (W.state out.new) text (result_err result) }
{
    rules_are_known();
    let line = header?;
    if line.is_empty() {
        return Ok(());
    }
    put(out, line.as_slice())
}

/// Writes the line of a passing of so much time from a clock on, in clock units. It is made in the given text,
/// as are those of actions: what that held is gone, and its room is kept.
pub(crate) fn tell_passing<W: Sink>(
    clock: u128,
    time: u128,
    line: &mut Vec<u8>,
    out: &mut W,
) -> Result<(), Halt>
    ensures { Wrote (W.state out.old) (W.state out.new) (trace_lines.time_line clock time)
        (result_err result) }
{
    rules_are_known();
    line.clear();
    put_time_line(line, clock, time)?;
    put(out, line.as_slice())
}

// Makes the line of the offer of this number, from 0, where it is taken. The only error is want of memory.
fn make_line<S: Simulator>(
    sim: &S,
    offers: u64,
    number: u64,
    action: &Action,
    line: &mut Vec<u8>,
) -> Result<(), AllocError>
    requires moment { IsMomentOf (S.simulation sim.now) (Moment.Actions offers) }
    requires offered { IsOffer (S.simulation sim.now) number action.now }
    ensures { OnOk result (line.new.items ≡ trace_lines.action_line
        (model_in (S.simulation sim.now)) (clock_in (S.simulation sim.now)) offers number
        action.now) }
{
    rules_are_known();
    let clock = sim.clock();
    line.clear();
    put_action_line(
        line,
        sim.checked(),
        sim.net(),
        clock,
        offers,
        number,
        action,
    )
}

/// Writes the line of the offer of this number, from 0, which is taken.
pub(crate) fn tell_offered<S: Simulator, W: Sink>(
    sim: &S,
    offers: u64,
    number: u64,
    action: &Action,
    line: &mut Vec<u8>,
    out: &mut W,
) -> Result<(), Halt>
    requires moment { IsMomentOf (S.simulation sim.now) (Moment.Actions offers) }
    requires offered { IsOffer (S.simulation sim.now) number action.now }
    ensures { Wrote (W.state out.old) (W.state out.new) (trace_lines.action_line
        (model_in (S.simulation sim.now)) (clock_in (S.simulation sim.now)) offers number
        action.now) (result_err result) }
{
    rules_are_known();
    make_line(sim, offers, number, action, line)?;
    put(out, line.as_slice())
}

/// The same of whichever action that is.
pub(crate) fn tell_action<S: Simulator, W: Sink>(
    sim: &S,
    offers: u64,
    number: u64,
    line: &mut Vec<u8>,
    out: &mut W,
) -> Result<(), Halt>
    requires moment { IsMomentOf (S.simulation sim.now) (Moment.Actions offers) }
    requires there { number < offers }
    ensures { (a : TheAction) → IsOffer (S.simulation sim.now) number a →
        Wrote (W.state out.old) (W.state out.new) (trace_lines.action_line
        (model_in (S.simulation sim.now)) (clock_in (S.simulation sim.now)) offers number a)
        (result_err result) }
{
    rules_are_known();
    let action = sim.offer(number)?;
    tell_offered(sim, offers, number, &action, line, out)
}

/// Writes the last line.
pub(crate) fn tell_last<S: Simulator, W: Sink>(
    alloc: Global,
    sim: &S,
    finale: Finale,
    out: &mut W,
) -> Result<(), Halt>
    requires { IsTroubledIn (model_in (S.simulation sim.now)) (ending_of finale) }
    ensures { (setting : Setting) (end : Config) (standing : Standing) →
        S.simulation sim.now ≡ stands setting end standing →
        Wrote (W.state out.old) (W.state out.new) (endings.last_line setting.model end.clock
        (ending_of finale)) (result_err result) }
{
    rules_are_known();
    let line = last_line(alloc, sim.net(), sim.clock(), finale)?;
    put(out, line.as_slice())
}

/// Writes the summary.
pub(crate) fn tell_summary<S: Simulator, W: Sink>(
    alloc: Global,
    sim: &S,
    played: Played,
    out: &mut W,
) -> Result<(), Halt>
    requires { IsTroubledIn (model_in (S.simulation sim.now)) (ending_of played.finale) }
    ensures { (setting : Setting) (end : Config) (standing : Standing) →
        S.simulation sim.now ≡ stands setting end standing →
        Wrote (W.state out.old) (W.state out.new) (summary_of setting.model played.actions
        played.passes end.clock (ending_of played.finale)) (result_err result) }
{
    rules_are_known();
    let line = summary_line(alloc, sim.net(), sim.clock(), played)?;
    put(out, line.as_slice())
}

// The line of the offer of this number, from 0, in a menu. The only error is want of memory.
fn menu_line<S: Simulator>(alloc: Global, sim: &S, number: u64) -> Result<Vec<u8>, AllocError>
    requires { (n : ℕ) × IsMomentOf (S.simulation sim.now) (Moment.Actions n) × (number < n) }
    ensures { IfOk result (λ line. (a : TheAction) → IsOffer (S.simulation sim.now) number a →
        line.items ≡ menus.offer_line (model_in (S.simulation sim.now)) number a) }
{
    rules_are_known();
    let action = sim.offer(number)?;
    offer_line(alloc, sim.checked(), sim.net(), number, &action)
}

// Writes it.
fn tell_offer<S: Simulator, W: Sink>(
    alloc: Global,
    sim: &S,
    number: u64,
    out: &mut W,
) -> Result<(), Halt>
    requires { (n : ℕ) × IsMomentOf (S.simulation sim.now) (Moment.Actions n) × (number < n) }
    ensures { (a : TheAction) → IsOffer (S.simulation sim.now) number a →
        Wrote (W.state out.old) (W.state out.new)
        (menus.offer_line (model_in (S.simulation sim.now)) number a) (result_err result) }
{
    rules_are_known();
    let line = menu_line(alloc, sim, number)?;
    put(out, line.as_slice())
}

// Writes a line for each of so many offers in order.
fn tell_each<S: Simulator, W: Sink>(
    alloc: Global,
    sim: &S,
    offers: u64,
    out: &mut W,
) -> Result<(), Halt>
    requires { IsMomentOf (S.simulation sim.now) (Moment.Actions offers) }
    ensures { (actions : List TheAction) → AreOffersOf (S.simulation sim.now) actions →
        Wrote (W.state out.old) (W.state out.new)
        (offers_text (model_in (S.simulation sim.now)) 0 actions) (result_err result) }
{
    rules_are_known();
    for number in 0..offers {
        tell_offer(alloc, sim, number, out)?;
    }
    Ok(())
}

/// Writes a line for each offer in order.
pub(crate) fn tell_offers<S: Simulator, W: Sink>(
    alloc: Global,
    sim: &S,
    out: &mut W,
) -> Result<(), Halt>
    ensures { (offers : List TheAction) × AreOffersOf (S.simulation sim.now) offers
        × Wrote (W.state out.old) (W.state out.new)
        (offers_text (model_in (S.simulation sim.now)) 0 offers) (result_err result) }
{
    rules_are_known();
    match sim.moment() {
        Moment::Actions(offers) => tell_each(alloc, sim, offers, out),
        _ => Ok(()),
    }
}
