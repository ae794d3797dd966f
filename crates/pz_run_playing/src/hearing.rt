// What is written for an event that a listener is told of.

ghost use Rattle.std.specs.Prelude.{◌≡◌, ◌<◌, ℕ, List, [], ◌∷◌, ◌++◌, OnOk};
ghost use Rattle.std.specs.Result.{result_err};
ghost use Rattle.pz_io.specs.Writing.{Wrote};
ghost use Rattle.pz_rules.specs.pz_syntax.Classes.{ModelTree};
ghost use Rattle.pz_rules.specs.declared.action.Action.{Action as TheAction};
ghost use Rattle.pz_rules.specs.Runs.{Event, acted, passed};
ghost use Rattle.pz_term_simulator.specs.Simulations.{IsMomentOf, IsOffer, model_in, clock_in};
ghost use Rattle.pz_watch.specs.Files.{NamedFormula};
ghost use Rattle.pz_watch_points.specs.EventPoints.{points_of};
ghost use Rattle.pz_watch_judging.specs.devices.Judging.{HasJudged};
ghost use Rattle.pz_run_playing.specs.Sayings.{judged_line};
ghost use Rattle.pz_run_playing.specs.devices.Hearing.{Manner, saying, AreUpTo, HasHeard};

use crate::laws::rules_are_known;
use crate::listening::Listener;
use crate::telling::{tell_action, tell_offered, tell_passing};
use pz_io::{Halt, Sink};
use pz_term_simulator::{Action, Moment, Simulator};
use pz_watch_judging::Watching;
use pz_watch_points::{passing, spot};
use std::alloc::Global;

/// Tells the listener that so much time passes from a clock on, in clock units.
pub(crate) fn hear_passing<W: Sink>(
    alloc: Global,
    clock: u128,
    time: u128,
    listener: &mut Listener,
    out: &mut W,
) -> Result<(), Halt>
    ensures wrote { (m : ModelTree) (manner : Manner) (past : List Event) →
        HasHeard m manner past clock listener.old →
        Wrote (W.state out.old) (W.state out.new) (saying m manner past (passed clock time))
        (result_err result) }
    ensures heard { (m : ModelTree) (manner : Manner) (past : List Event) →
        HasHeard m manner past clock listener.old →
        OnOk result (HasHeard m manner (past ++ passed clock time ∷ []) clock listener.new) }
{
    rules_are_known();
    match listener {
        Listener::Silent => Ok(()),
        Listener::Lines { line } => tell_passing(clock, time, line, out),
        Listener::Watches { watching, line } => {
            judge_passing(alloc, clock, time, watching, line, out)
        }
    }
}

// Writes the line of a passing, and lets the watches judge it.
fn judge_passing<W: Sink>(
    alloc: Global,
    clock: u128,
    time: u128,
    watching: &mut Watching,
    line: &mut Vec<u8>,
    out: &mut W,
) -> Result<(), Halt>
    ensures wrote { (m : ModelTree) (ws : List NamedFormula) (past : List Event) →
        HasJudged ws (points_of m past) watching.old → AreUpTo (points_of m past) clock →
        Wrote (W.state out.old) (W.state out.new) (judged_line m ws past (passed clock time))
        (result_err result) }
    ensures judged { (m : ModelTree) (ws : List NamedFormula) (past : List Event) →
        HasJudged ws (points_of m past) watching.old → AreUpTo (points_of m past) clock →
        OnOk result (HasJudged ws (points_of m (past ++ passed clock time ∷ [])) watching.new) }
{
    rules_are_known();
    tell_passing(clock, time, line, out)?;
    watching.judge(alloc, &passing(clock), out)
}

/// Tells the listener that the offer of this number, from 0, is taken.
pub(crate) fn hear_action<S: Simulator, W: Sink>(
    alloc: Global,
    sim: &S,
    offers: u64,
    number: u64,
    listener: &mut Listener,
    out: &mut W,
) -> Result<(), Halt>
    requires moment { IsMomentOf (S.simulation sim.now) (Moment.Actions offers) }
    requires there { number < offers }
    ensures wrote { (a : TheAction) (manner : Manner) (past : List Event) →
        let s = S.simulation sim.now in
        IsOffer s number a → HasHeard (model_in s) manner past (clock_in s) listener.old →
        Wrote (W.state out.old) (W.state out.new)
        (saying (model_in s) manner past (acted (clock_in s) offers number a))
        (result_err result) }
    ensures heard { (a : TheAction) (manner : Manner) (past : List Event) →
        let s = S.simulation sim.now in
        IsOffer s number a → HasHeard (model_in s) manner past (clock_in s) listener.old →
        OnOk result (HasHeard (model_in s) manner (past ++ acted (clock_in s) offers number a ∷ [])
        (clock_in s) listener.new) }
{
    rules_are_known();
    match listener {
        Listener::Silent => Ok(()),
        Listener::Lines { line } => tell_action(sim, offers, number, line, out),
        Listener::Watches { watching, line } => {
            judge_action(alloc, sim, offers, number, watching, line, out)
        }
    }
}

// Writes the line of the offer of this number, which is taken, and lets the watches judge it.
fn judge_action<S: Simulator, W: Sink>(
    alloc: Global,
    sim: &S,
    offers: u64,
    number: u64,
    watching: &mut Watching,
    line: &mut Vec<u8>,
    out: &mut W,
) -> Result<(), Halt>
    requires moment { IsMomentOf (S.simulation sim.now) (Moment.Actions offers) }
    requires there { number < offers }
    ensures wrote { (a : TheAction) (ws : List NamedFormula) (past : List Event) →
        let s = S.simulation sim.now in
        IsOffer s number a → HasJudged ws (points_of (model_in s) past) watching.old →
        AreUpTo (points_of (model_in s) past) (clock_in s) →
        Wrote (W.state out.old) (W.state out.new)
        (judged_line (model_in s) ws past (acted (clock_in s) offers number a))
        (result_err result) }
    ensures judged { (a : TheAction) (ws : List NamedFormula) (past : List Event) →
        let s = S.simulation sim.now in
        IsOffer s number a → HasJudged ws (points_of (model_in s) past) watching.old →
        AreUpTo (points_of (model_in s) past) (clock_in s) → OnOk result (HasJudged ws
        (points_of (model_in s) (past ++ acted (clock_in s) offers number a ∷ []))
        watching.new) }
{
    rules_are_known();
    let action = sim.offer(number)?;
    judge_offered(alloc, sim, offers, number, &action, watching, line, out)
}

// The same, of this action.
fn judge_offered<S: Simulator, W: Sink>(
    alloc: Global,
    sim: &S,
    offers: u64,
    number: u64,
    action: &Action,
    watching: &mut Watching,
    line: &mut Vec<u8>,
    out: &mut W,
) -> Result<(), Halt>
    requires moment { IsMomentOf (S.simulation sim.now) (Moment.Actions offers) }
    requires offered { IsOffer (S.simulation sim.now) number action.now }
    ensures wrote { (ws : List NamedFormula) (past : List Event) →
        let s = S.simulation sim.now in
        HasJudged ws (points_of (model_in s) past) watching.old →
        AreUpTo (points_of (model_in s) past) (clock_in s) →
        Wrote (W.state out.old) (W.state out.new)
        (judged_line (model_in s) ws past (acted (clock_in s) offers number action.now))
        (result_err result) }
    ensures judged { (ws : List NamedFormula) (past : List Event) →
        let s = S.simulation sim.now in
        HasJudged ws (points_of (model_in s) past) watching.old →
        AreUpTo (points_of (model_in s) past) (clock_in s) → OnOk result (HasJudged ws
        (points_of (model_in s) (past ++ acted (clock_in s) offers number action.now ∷ []))
        watching.new) }
{
    rules_are_known();
    tell_offered(sim, offers, number, action, line, out)?;
    watching.judge(alloc, &spot(sim.net(), sim.clock(), action), out)
}
