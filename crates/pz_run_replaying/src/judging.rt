// Which line of a trace is taken next. The line of the rules is made in one text, which is kept for its room:
// what it holds between two lines means nothing.

ghost use Rattle.std.specs.Prelude.{◌≡◌, ◌≢◌, ◌<◌, ◌++◌, ℕ, List, IfOk, OnOk, MatchOption};
ghost use Rattle.pz_rules.specs.declared.action.Action.{Action as TheAction};
ghost use Rattle.pz_trace.specs.Lines as trace_lines;
ghost use Rattle.pz_term_simulator.specs.Simulations.{IsMomentOf};
ghost use Rattle.pz_run_replaying.specs.devices.Fronts.{StartsWith};
ghost use Rattle.pz_term_simulator.specs.Simulations.{model_in, clock_in, IsOffer};
ghost use Rattle.pz_run_replaying.specs.devices.Readiness.{IsReady, IsLast, IsNamedLast, HasFewOffers};
ghost use Rattle.pz_run_replaying.specs.devices.Judging.{Judges};

use crate::fronts::{front_len, named_offer};
use crate::laws::rules_are_known;
use pz_term_simulator::{Moment, Simulator};
use pz_trace::{Ending, put_action_line, put_end_line, put_time_line};
use std::alloc::{AllocError, Global};
use std::mem;

/// How a run goes on.
#[derive(Clone, Copy)]
pub(crate) enum Move {
    /// Of so many offers the one of this number, from 0, is taken.
    Act { offers: u64, number: u64 },
    /// So much time passes, in clock units.
    Wait { time: u128 },
}

/// What stands first in what is left of a trace.
#[derive(Drop)]
pub(crate) enum Judged {
    /// The line of this move, of so many bytes.
    Goes { step: Move, len: usize },
    /// The last line of a run that ends so, of so many bytes.
    Ends { ending: Ending, len: usize },
    /// No line that a run has there. The rules have this one, if any.
    Differs { expected: Option<Vec<u8>> },
}

// Makes the last line of a run that ends so where the simulator stands. The only error is want of memory.
fn make_last<S: Simulator>(sim: &S, ending: Ending, line: &mut Vec<u8>) -> Result<(), AllocError>
    requires ready { IsReady (S.simulation sim.now) }
    requires named { IsNamedLast (S.simulation sim.now) ending }
    ensures { OnOk result (line.new.items ≡ trace_lines.end_line
        (model_in (S.simulation sim.now)) (clock_in (S.simulation sim.now)) ending) }
{
    line.clear();
    put_end_line(line, sim.net(), sim.clock(), &ending)
}

// How long the line of a stop is, if what is left begins with it. The only error is want of memory.
fn stop_len<S: Simulator>(
    sim: &S,
    rest: &[u8],
    line: &mut Vec<u8>,
) -> Result<Option<usize>, AllocError>
    requires { IsReady (S.simulation sim.now) }
    ensures { IfOk result (λ found. MatchOption found ((left : List ℕ) →
        rest.now ≡ trace_lines.end_line (model_in (S.simulation sim.now))
        (clock_in (S.simulation sim.now)) Ending.Stop ++ left →
        ⊥) (StartsWith rest.now (trace_lines.end_line (model_in (S.simulation sim.now))
        (clock_in (S.simulation sim.now)) Ending.Stop))) }
{
    make_last(sim, Ending::Stop, line)?;
    Ok(front_len(rest, line.as_slice()))
}

// Makes the line of the offer of this number, from 0, where it is taken. The only error is want of memory.
fn make_offer<S: Simulator>(
    sim: &S,
    clock: u128,
    offers: u64,
    number: u64,
    line: &mut Vec<u8>,
) -> Result<(), AllocError>
    requires at { clock ≡ clock_in (S.simulation sim.now) }
    requires moment { IsMomentOf (S.simulation sim.now) (Moment.Actions offers) }
    requires there { number < offers }
    ensures { OnOk result ((a : TheAction) → IsOffer (S.simulation sim.now) number a →
        line.new.items ≡ trace_lines.action_line (model_in (S.simulation sim.now))
        (clock_in (S.simulation sim.now)) offers number a) }
{
    rules_are_known();
    let action = sim.offer(number)?;
    line.clear();
    put_action_line(
        line,
        sim.checked(),
        sim.net(),
        clock,
        offers,
        number,
        &action,
    )
}

// Where there are offers: one is taken, or the run is stopped.
fn judge_action<S: Simulator>(
    alloc: Global,
    sim: &S,
    offers: u64,
    rest: &[u8],
    line: &mut Vec<u8>,
) -> Result<Judged, AllocError>
    requires ready { IsReady (S.simulation sim.now) }
    requires moment { IsMomentOf (S.simulation sim.now) (Moment.Actions offers) }
    ensures judges { IfOk result (Judges (S.simulation sim.now) rest.now) }
    ensures few { HasFewOffers (S.simulation sim.now) }
{
    rules_are_known();
    let clock = sim.clock();
    if let Some(len) = stop_len(sim, rest, line)? {
        return Ok(Judged::Ends {
            ending: Ending::Stop,
            len,
        });
    }
    let Some(number) = named_offer(rest, offers) else {
        return Ok(Judged::Differs { expected: None });
    };
    make_offer(sim, clock, offers, number, line)?;
    match front_len(rest, line.as_slice()) {
        Some(len) => Ok(Judged::Goes {
            step: Move::Act { offers, number },
            len,
        }),
        None => Ok(Judged::Differs {
            expected: Some(mem::replace(line, Vec::new(alloc))),
        }),
    }
}

// Where time passes: it does, or the run is stopped.
fn judge_passing<S: Simulator>(
    alloc: Global,
    sim: &S,
    time: u128,
    rest: &[u8],
    line: &mut Vec<u8>,
) -> Result<Judged, AllocError>
    requires ready { IsReady (S.simulation sim.now) }
    requires moment { IsMomentOf (S.simulation sim.now) (Moment.Time time) }
    ensures { IfOk result (Judges (S.simulation sim.now) rest.now) }
{
    rules_are_known();
    if let Some(len) = stop_len(sim, rest, line)? {
        return Ok(Judged::Ends {
            ending: Ending::Stop,
            len,
        });
    }
    line.clear();
    put_time_line(line, sim.clock(), time)?;
    match front_len(rest, line.as_slice()) {
        Some(len) => Ok(Judged::Goes {
            step: Move::Wait { time },
            len,
        }),
        None => Ok(Judged::Differs {
            expected: Some(mem::replace(line, Vec::new(alloc))),
        }),
    }
}

// Where a run ends by itself, it ends so.
fn judge_end<S: Simulator>(
    alloc: Global,
    sim: &S,
    ending: Ending,
    rest: &[u8],
    line: &mut Vec<u8>,
) -> Result<Judged, AllocError>
    requires ready { IsReady (S.simulation sim.now) }
    requires last { IsLast (S.simulation sim.now) ending }
    ensures { IfOk result (Judges (S.simulation sim.now) rest.now) }
{
    rules_are_known();
    make_last(sim, ending, line)?;
    match front_len(rest, line.as_slice()) {
        Some(len) => Ok(Judged::Ends { ending, len }),
        None => Ok(Judged::Differs {
            expected: Some(mem::replace(line, Vec::new(alloc))),
        }),
    }
}

/// What stands first in what is left of a trace, where the simulator stands. The only error is want of
/// memory.
pub(crate) fn judge<S: Simulator>(
    alloc: Global,
    sim: &S,
    rest: &[u8],
    line: &mut Vec<u8>,
) -> Result<Judged, AllocError>
    requires { IsReady (S.simulation sim.now) }
    ensures judges { IfOk result (Judges (S.simulation sim.now) rest.now) }
    ensures few { HasFewOffers (S.simulation sim.now) }
{
    rules_are_known();
    match sim.moment() {
        Moment::Actions(offers) => judge_action(alloc, sim, offers, rest, line),
        Moment::Time(time) => judge_passing(alloc, sim, time, rest, line),
        Moment::Finished => judge_end(alloc, sim, Ending::End, rest, line),
        Moment::Deadlock => judge_end(alloc, sim, Ending::Deadlock, rest, line),
        Moment::Faulty(trouble) => judge_end(alloc, sim, Ending::Trouble(trouble), rest, line),
        Moment::Stopped(trouble) => judge_end(alloc, sim, Ending::Trouble(trouble), rest, line),
        Moment::Broken => unreachable!(),
    }
}
