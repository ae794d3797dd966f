// A run, moment by moment.

ghost use Rattle.std.specs.Prelude.{◌≡◌, ◌≤◌, ◌<◌, ◌+◌, ◌^◌, ℕ, List, [], ◌∷◌, ◌++◌, IfOk, OnOk, IfErr};
ghost use Rattle.std.specs.Result.{result_err};
ghost use Rattle.pz_io.specs.Writing.{Wrote};
ghost use Rattle.pz_rules.specs.declared.action.Action.{Action as TheAction};
ghost use Rattle.pz_rules.specs.ChosenRuns.{Policy};
ghost use Rattle.pz_rules.specs.Clocks.{most_actions};
ghost use Rattle.pz_rules.specs.declared.limits.Edition.TheVariants.{Two};
ghost use Rattle.pz_classes_openings.specs.OpeningRules.{Opens};
ghost use Rattle.pz_choice.specs.Resolvers.{Resolver};
ghost use Rattle.pz_choice.specs.Choosers.{Stands};
ghost use Rattle.pz_rules.specs.Runs.{Event, acted, passed};
ghost use Rattle.pz_term_simulator.specs.Simulations.{Starts, IsMomentOf, Chooses, Passes, setting_in};
ghost use Rattle.pz_run_playing.specs.Policies.{resolver_of, policy_of};
ghost use Rattle.pz_term_simulator.specs.Simulations.{model_in, limits_in, clock_in, IsOffer};
ghost use Rattle.pz_term_simulator.specs.devices.Room.{HasRoomFor};
ghost use Rattle.pz_run_playing.specs.devices.Rests.{IsReady, IsHeld};
ghost use Rattle.pz_run_playing.specs.devices.Hearing.{Manner, saying, Hears, HasHeard};
ghost use Rattle.pz_run_playing.specs.devices.Going.{HasGone, Passing, CutShort, Ended, PlayedThrough, BrokenOff};

use crate::choosing::chooser_of;
use crate::deciding::{Decision, decide, is_beyond};
use crate::finale::Finale;
use crate::hearing::{hear_action, hear_passing};
use crate::laws::rules_are_known;
use crate::listening::Listener;
use crate::telling::tell_header;
use pz_choice::Chooser;
use pz_io::{Halt, Sink};
use pz_term_simulator::{ChooseError, Moment, PassError, Simulator, Steps};
use pz_words::{Choice, RunLimits};
use std::alloc::{AllocError, Global};
use std::mem::drop;
use std::sync::ledger::Ledger;

/// A run that was played to its end.
#[derive(Clone, Copy)]
pub(crate) struct Played {
    pub finale: Finale,
    /// How many actions were chosen.
    pub actions: u64,
    /// How often time passed.
    pub passes: u128,
}

// Tells the passing of time that comes now, and lets it pass. Nothing that is promised depends on which is
// first, here and in `act`.
fn pass<S: Simulator, L: Ledger, W: Sink>(
    alloc: Global,
    sim: &mut S,
    time: u128,
    listener: &mut Listener,
    steps: &mut Steps<L>,
    out: &mut W,
) -> Result<(), Halt>
    requires moment { IsMomentOf (S.simulation sim.old) (Moment.Time time) }
    requires low { clock_in (S.simulation sim.old) < 2 ^ 127 }
    ensures passes { OnOk result (Passes (S.simulation sim.old) (S.simulation sim.new)) }
    ensures short { OnOk result (clock_in (S.simulation sim.new) <
        clock_in (S.simulation sim.old) + 2 ^ 64) }
    ensures setting { setting_in (S.simulation sim.new) ≡ setting_in (S.simulation sim.old) }
    ensures wrote { (manner : Manner) (past : List Event) → let s = S.simulation sim.old in
        HasHeard (model_in s) manner past (clock_in s) listener.old →
        Wrote (W.state out.old) (W.state out.new)
        (saying (model_in s) manner past (passed (clock_in s) time)) (result_err result) }
    ensures heard { (manner : Manner) (past : List Event) → let s = S.simulation sim.old in
        HasHeard (model_in s) manner past (clock_in s) listener.old →
        OnOk result (HasHeard (model_in s) manner (past ++ passed (clock_in s) time ∷ [])
        (clock_in s) listener.new) }
{
    rules_are_known();
    hear_passing(alloc, sim.clock(), time, listener, out)?;
    match sim.pass(steps) {
        Ok(()) => Ok(()),
        Err(PassError::NoMemory) => Err(Halt::NoMemory),
        Err(PassError::NotNow(_)) => unreachable!(),
    }
}

// Tells the offer of this number, from 0, and takes it.
fn act<S: Simulator, L: Ledger, W: Sink>(
    alloc: Global,
    sim: &mut S,
    offers: u64,
    number: u64,
    listener: &mut Listener,
    steps: &mut Steps<L>,
    out: &mut W,
) -> Result<(), Halt>
    requires moment { IsMomentOf (S.simulation sim.old) (Moment.Actions offers) }
    requires there { number < offers }
    ensures chooses { OnOk result (Chooses number (S.simulation sim.old)
        (S.simulation sim.new)) }
    ensures setting { setting_in (S.simulation sim.new) ≡ setting_in (S.simulation sim.old) }
    ensures wrote { (a : TheAction) (manner : Manner) (past : List Event) →
        let s = S.simulation sim.old in
        IsOffer s number a → HasHeard (model_in s) manner past (clock_in s) listener.old →
        Wrote (W.state out.old) (W.state out.new)
        (saying (model_in s) manner past (acted (clock_in s) offers number a))
        (result_err result) }
    ensures heard { (a : TheAction) (manner : Manner) (past : List Event) →
        let s = S.simulation sim.old in
        IsOffer s number a → HasHeard (model_in s) manner past (clock_in s) listener.old →
        OnOk result (HasHeard (model_in s) manner (past ++ acted (clock_in s) offers number a ∷ [])
        (clock_in s) listener.new) }
{
    rules_are_known();
    hear_action(alloc, sim, offers, number, listener, out)?;
    match sim.choose(number, steps) {
        Ok(()) => Ok(()),
        Err(ChooseError::NoMemory) => Err(Halt::NoMemory),
        Err(ChooseError::NoSuchOffer { .. }) => unreachable!(),
        Err(ChooseError::NotNow(_)) => unreachable!(),
    }
}

// Lets time pass as long as it does, and not beyond the bound. Gives how often time has passed in all,
// with the passings before these.
fn pass_time<S: Simulator, L: Ledger, W: Sink>(
    alloc: Global,
    sim: &mut S,
    until: Option<u64>,
    passes: u128,
    listener: &mut Listener,
    steps: &mut Steps<L>,
    out: &mut W,
) -> Result<u128, Halt>
    requires ready { IsReady (S.simulation sim.old) }
    requires within { passes ≤ clock_in (S.simulation sim.old) }
    requires room { HasRoomFor 0 (S.simulation sim.old) }
    ensures gone { IfOk result (λ all. HasGone (S.simulation sim.old) all
        (S.simulation sim.new)) }
    ensures passing { IfOk result (λ all. (manner : Manner) (past : List Event) →
        let s = S.simulation sim.old in
        HasHeard (model_in s) manner past (clock_in s) listener.old →
        Passing until manner past s (W.state out.old) passes all (S.simulation sim.new)
        listener.new (W.state out.new)) }
    ensures held { OnOk result (IsHeld until (S.simulation sim.new)) }
    ensures room { OnOk result ((left : ℕ) → HasRoomFor left (S.simulation sim.old) →
        HasRoomFor left (S.simulation sim.new)) }
    ensures cut { IfErr result (λ halt. (policy : Policy) (actions : ℕ) (manner : Manner)
        (past : List Event) → let s = S.simulation sim.old in policy.until ≡ until →
        HasHeard (model_in s) manner past (clock_in s) listener.old →
        CutShort policy (saying (model_in s) manner) actions past s (W.state out.old)
        (W.state out.new) halt) }
{
    rules_are_known();
    let mut all = passes;
    let mut clock = sim.clock();
    'passings: loop {
        let Moment::Time(time) = sim.moment() else {
            return Ok(all);
        };
        if is_beyond(until, clock, time) {
            return Ok(all);
        }
        pass(alloc, sim, time, listener, steps, out)?;
        clock = sim.clock();
        all += 1;
    }
}

// Plays a run to its end, from a simulator and a chooser before the first choice.
fn play_on<S: Simulator, L: Ledger, W: Sink>(
    alloc: Global,
    sim: &mut S,
    chooser: &mut Chooser,
    limits: RunLimits,
    listener: &mut Listener,
    steps: &mut Steps<L>,
    out: &mut W,
) -> Result<Played, Halt>
    requires ready { IsReady (S.simulation sim.old) }
    requires room { HasRoomFor limits.steps (S.simulation sim.old) }
    ensures ended { IfOk result (λ played. (r : Resolver) (manner : Manner) →
        let s = S.simulation sim.old in
        Stands chooser.old r 0 → HasHeard (model_in s) manner [] (clock_in s) listener.old →
        Ended (policy_of r limits) manner s (S.simulation sim.new) (W.state out.old)
        (W.state out.new) listener.new played) }
    ensures cut { IfErr result (λ halt. (r : Resolver) (manner : Manner) →
        let s = S.simulation sim.old in
        Stands chooser.old r 0 → HasHeard (model_in s) manner [] (clock_in s) listener.old →
        CutShort (policy_of r limits) (saying (model_in s) manner) 0 [] s (W.state out.old)
        (W.state out.new) halt) }
{
    rules_are_known();
    let mut actions = 0;
    let mut passes = 0;
    'actions: loop {
        passes = pass_time(alloc, sim, limits.until, passes, listener, steps, out)?;
        match decide(sim.moment(), chooser, limits, actions) {
            Decision::Stop(finale) => {
                return Ok(Played {
                    finale,
                    actions,
                    passes,
                });
            }
            Decision::Take { offers, number } => {
                act(alloc, sim, offers, number, listener, steps, out)?;
                actions += 1;
            }
        }
    }
}

/// Plays the run that is chosen so, from the start of a simulator on, behind a first line. The listener is
/// told of each event before the simulator goes on. The last line is not written.
pub(crate) fn play<S: Simulator, L: Ledger, W: Sink>(
    alloc: Global,
    sim: &mut S,
    header: Result<Vec<u8>, AllocError>,
    choice: Choice,
    limits: RunLimits,
    listener: &mut Listener,
    steps: &mut Steps<L>,
    out: &mut W,
) -> Result<Played, Halt>
    requires starts { Starts (setting_in (S.simulation sim.old)) (S.simulation sim.old) }
    requires opens { (limits_in (S.simulation sim.old)).edition ≡ Two →
        Opens (model_in (S.simulation sim.old)) }
    requires few { limits.steps ≤ most_actions }
    ensures through { IfOk result (λ played. (text : List ℕ) (manner : Manner) →
        let setting = setting_in (S.simulation sim.old) in
        IfOk header (λ line. line.items ≡ text) → Hears setting.model manner [] listener.old →
        PlayedThrough setting (policy_of (resolver_of choice) limits) text manner
        (S.simulation sim.new) (W.state out.old) (W.state out.new) listener.new played) }
    ensures broken { IfErr result (λ halt. (text : List ℕ) (manner : Manner) →
        let setting = setting_in (S.simulation sim.old) in
        IfOk header (λ line. line.items ≡ text) → Hears setting.model manner [] listener.old →
        BrokenOff setting (policy_of (resolver_of choice) limits) text manner (W.state out.old)
        (W.state out.new) halt) }
{
    rules_are_known();
    let _model = sim.checked().model();
    tell_header(header, out)?;
    let mut chooser = chooser_of(choice);
    let played = play_on(alloc, sim, &mut chooser, limits, listener, steps, out);
    drop(chooser);
    played
}
