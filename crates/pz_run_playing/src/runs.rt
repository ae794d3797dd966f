// Runs of a simulator from its start to its end, and what is told of them.

ghost use Rattle.std.specs.Prelude.{◌≡◌, ◌≤◌, ℕ, List, [], IfOk};
ghost use Rattle.pz_classes_openings.specs.OpeningRules.{Opens};
ghost use Rattle.pz_rules.specs.declared.limits.Edition.TheVariants.{Two};
ghost use Rattle.pz_rules.specs.Settings.{Setting};
ghost use Rattle.pz_rules.specs.Clocks.{most_actions};
ghost use Rattle.pz_term_simulator.specs.Simulations.{Starts, model_in, limits_in};
ghost use Rattle.pz_run_playing.specs.Policies.{resolver_of, policy_of};
ghost use Rattle.pz_watch.specs.Files.{NamedFormula};
ghost use Rattle.pz_watch.specs.devices.Standing.{StandForEach};
ghost use Rattle.pz_run_playing.specs.Playing.{PlaysUnder, Plays, trace, summary, menu};
ghost use Rattle.pz_run_playing.specs.Watched.{PlaysWatched};

use crate::finale::{Finale, Judged};
use crate::laws::rules_are_known;
use crate::listening::Listener;
use crate::playing::{Played, play};
use crate::telling::{header_line, tell_last, tell_offers, tell_summary};
use pz_io::{Halt, Sink};
use pz_rules::pz_items::Items;
use pz_term_simulator::{Simulator, Steps};
use pz_watch::Watch;
use pz_watch_judging::Watching;
use pz_watch_points::pz_trace::Ending;
use pz_words::{Choice, RunLimits};
use std::alloc::{AllocError, Global};
use std::mem::drop;
use std::sync::ledger::Ledger;

/// Plays the run that is chosen so, from the start of a simulator to its end, and writes its text: this
/// first line, a line for each action and each passing of time before the simulator takes it, and the last
/// line. It keeps one line at a time. The units of the limits are no matter here: the simulator has its own
/// limits.
///
/// # Errors
///
/// What was written is a front of that text. What has become of the simulator is left open.
pub fn play_under<S: Simulator, L: Ledger, W: Sink>(
    alloc: Global,
    sim: &mut S,
    header: Result<Vec<u8>, AllocError>,
    choice: Choice,
    limits: RunLimits,
    steps: &mut Steps<L>,
    out: &mut W,
) -> Result<Finale, Halt>
    requires starts { (setting : Setting) × Starts setting (S.simulation sim.old) }
    requires opens { (limits_in (S.simulation sim.old)).edition ≡ Two →
        Opens (model_in (S.simulation sim.old)) }
    requires few { limits.steps ≤ most_actions }
    ensures { (setting : Setting) (text : List ℕ) → Starts setting (S.simulation sim.old) →
        IfOk header (λ line. line.items ≡ text) →
        PlaysUnder setting (policy_of (resolver_of choice) limits) text (S.simulation sim.new)
        (W.state out.old) (W.state out.new) result }
{
    rules_are_known();
    let mut listener = Listener::Lines {
        line: Vec::new(alloc),
    };
    let played = play(
        alloc,
        sim,
        header,
        choice,
        limits,
        &mut listener,
        steps,
        out,
    );
    drop(listener);
    let played = played?;
    tell_last(alloc, sim, played.finale, out)?;
    Ok(played.finale)
}

/// The same, and the first line is the header of a trace, which the limits of the simulator tell.
///
/// # Errors
///
/// What was written is a front of the trace. What has become of the simulator is left open.
pub fn play_trace<S: Simulator, L: Ledger, W: Sink>(
    alloc: Global,
    sim: &mut S,
    choice: Choice,
    limits: RunLimits,
    steps: &mut Steps<L>,
    out: &mut W,
) -> Result<Finale, Halt>
    requires starts { (setting : Setting) × Starts setting (S.simulation sim.old) }
    requires opens { (limits_in (S.simulation sim.old)).edition ≡ Two →
        Opens (model_in (S.simulation sim.old)) }
    requires few { limits.steps ≤ most_actions }
    ensures { (setting : Setting) → Starts setting (S.simulation sim.old) →
        Plays setting (policy_of (resolver_of choice) limits) trace (S.simulation sim.new)
        (W.state out.old) (W.state out.new) result }
{
    let header = header_line(alloc, sim);
    play_under(alloc, sim, header, choice, limits, steps, out)
}

/// Plays the run as [`play_under`] does, but what is written is its summary, one line.
///
/// # Errors
///
/// What was written is a front of that line. What has become of the simulator is left open.
pub fn play_summary<S: Simulator, L: Ledger, W: Sink>(
    alloc: Global,
    sim: &mut S,
    choice: Choice,
    limits: RunLimits,
    steps: &mut Steps<L>,
    out: &mut W,
) -> Result<Finale, Halt>
    requires starts { (setting : Setting) × Starts setting (S.simulation sim.old) }
    requires opens { (limits_in (S.simulation sim.old)).edition ≡ Two →
        Opens (model_in (S.simulation sim.old)) }
    requires few { limits.steps ≤ most_actions }
    ensures { (setting : Setting) → Starts setting (S.simulation sim.old) →
        Plays setting (policy_of (resolver_of choice) limits) summary (S.simulation sim.new)
        (W.state out.old) (W.state out.new) result }
{
    rules_are_known();
    let mut listener = Listener::Silent;
    let none = Ok(Vec::new(alloc));
    let played = play(alloc, sim, none, choice, limits, &mut listener, steps, out);
    drop(listener);
    let played = played?;
    tell_summary(alloc, sim, played, out)?;
    Ok(played.finale)
}

/// Plays the run as [`play_trace`] does, and where it was stopped before an action, writes a line for each
/// offer that there is, from number 0 on.
///
/// # Errors
///
/// What was written is a front of the trace and these lines. What has become of the simulator is left open.
pub fn play_menu<S: Simulator, L: Ledger, W: Sink>(
    alloc: Global,
    sim: &mut S,
    choice: Choice,
    limits: RunLimits,
    steps: &mut Steps<L>,
    out: &mut W,
) -> Result<Finale, Halt>
    requires starts { (setting : Setting) × Starts setting (S.simulation sim.old) }
    requires opens { (limits_in (S.simulation sim.old)).edition ≡ Two →
        Opens (model_in (S.simulation sim.old)) }
    requires few { limits.steps ≤ most_actions }
    ensures { (setting : Setting) → Starts setting (S.simulation sim.old) →
        Plays setting (policy_of (resolver_of choice) limits) menu (S.simulation sim.new)
        (W.state out.old) (W.state out.new) result }
{
    rules_are_known();
    let _model = sim.checked().model();
    let finale = play_trace(alloc, sim, choice, limits, steps, out)?;
    let Finale::Ended(ending) = finale else {
        return Ok(finale);
    };
    match ending {
        Ending::Stop => {
            tell_offers(alloc, sim, out)?;
            Ok(finale)
        }
        _ => Ok(finale),
    }
}

/// Plays the run as [`play_trace`] does, and judges each line by these watches, which are before their first
/// point: behind each line stands one for each watch that is broken there, in their order. They are
/// fed in place.
///
/// # Errors
///
/// What was written is a front of that text. What has become of the simulator is left open.
pub fn play_watched<S: Simulator, L: Ledger, W: Sink>(
    alloc: Global,
    sim: &mut S,
    choice: Choice,
    limits: RunLimits,
    watches: Items<Watch>,
    steps: &mut Steps<L>,
    out: &mut W,
) -> Result<Judged, Halt>
    requires starts { (setting : Setting) × Starts setting (S.simulation sim.old) }
    requires opens { (limits_in (S.simulation sim.old)).edition ≡ Two →
        Opens (model_in (S.simulation sim.old)) }
    requires few { limits.steps ≤ most_actions }
    requires stand { (ws : List NamedFormula) × StandForEach watches ws [] }
    ensures { (setting : Setting) (ws : List NamedFormula) →
        Starts setting (S.simulation sim.old) → StandForEach watches ws [] →
        PlaysWatched setting (policy_of (resolver_of choice) limits) ws (S.simulation sim.new)
        (W.state out.old) (W.state out.new) result }
{
    rules_are_known();
    let mut listener = Listener::Watches {
        watching: Watching::new(watches),
        line: Vec::new(alloc),
    };
    let header = header_line(alloc, sim);
    let played = play(
        alloc,
        sim,
        header,
        choice,
        limits,
        &mut listener,
        steps,
        out,
    );
    let broken = listener.is_broken();
    drop(listener);
    let Played { finale, .. } = played?;
    tell_last(alloc, sim, finale, out)?;
    Ok(Judged { finale, broken })
}
