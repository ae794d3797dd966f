// Single steps.

ghost use Rattle.std.specs.Prelude.{◌≡◌, ◌≤◌, ◌<◌, ℕ, [], ◌∷◌, ◌++◌, OnOk};
ghost use Rattle.std.specs.Result.{result_err};
ghost use Rattle.pz_io.specs.Writing.{Wrote};
ghost use Rattle.pz_trace.specs.Lines as trace_lines;
ghost use Rattle.pz_term_simulator.specs.Simulations.{IsMomentOf, IsOffer, setting_in, model_in, clock_in};
ghost use Rattle.pz_debug_commands.specs.Commands as commands;
ghost use Rattle.pz_debug_session.specs.declared.step.Step.TheVariants as step;
ghost use Rattle.pz_debug_session.specs.Sessions.{steps_in, stands_in};
ghost use Rattle.pz_debug_replies.specs.Lines as lines;
ghost use Rattle.pz_debug_replies.specs.Replying.{IsAt, Replied};

use crate::laws::rules_are_known;
use crate::lines::{refused_pass_line, refused_pick_line};
use crate::offers::{offer_of, offers_at, tell_taken};
use pz_debug_session::{Engine, Session};
use pz_io::{Halt, Sink, put};
use pz_term_simulator::{Action, ChooseError, Moment, PassError};
use pz_trace::time_line;
use std::alloc::{AllocError, Global};

// Takes the offer of this number, from 0. The only error is want of memory.
fn pick<E: Engine + Drop>(session: &mut Session<E>, number: u64) -> Result<(), AllocError>
    requires there { (n : ℕ) × IsMomentOf (stands_in E.simulation session.old) (Moment.Actions n)
        × (number < n) }
    requires at { IsAt (steps_in session.old) (stands_in E.simulation session.old) }
    ensures steps { OnOk result (steps_in session.new ≡
        steps_in session.old ++ step.Pick number ∷ []) }
    ensures at { OnOk result (IsAt (steps_in session.new)
        (stands_in E.simulation session.new)) }
    ensures setting { setting_in (stands_in E.simulation session.new) ≡
        setting_in (stands_in E.simulation session.old) }
{
    rules_are_known();
    match session.pick(number) {
        Ok(()) => Ok(()),
        Err(ChooseError::NoMemory) => Err(AllocError),
        Err(ChooseError::NoSuchOffer { .. }) => unreachable!(),
        Err(ChooseError::NotNow(_)) => unreachable!(),
    }
}

// Lets time pass. The only error is want of memory.
fn pass<E: Engine + Drop>(session: &mut Session<E>) -> Result<(), AllocError>
    requires there { (d : ℕ) × IsMomentOf (stands_in E.simulation session.old) (Moment.Time d) }
    requires at { IsAt (steps_in session.old) (stands_in E.simulation session.old) }
    ensures steps { OnOk result (steps_in session.new ≡
        steps_in session.old ++ step.Pass ∷ []) }
    ensures at { OnOk result (IsAt (steps_in session.new)
        (stands_in E.simulation session.new)) }
    ensures setting { setting_in (stands_in E.simulation session.new) ≡
        setting_in (stands_in E.simulation session.old) }
{
    rules_are_known();
    match session.pass() {
        Ok(()) => Ok(()),
        Err(PassError::NoMemory) => Err(AllocError),
        Err(PassError::NotNow(_)) => unreachable!(),
    }
}

/// Takes the offer of this number, from 0, and writes its line.
pub(crate) fn take_offer<E: Engine + Drop, W: Sink>(
    alloc: Global,
    session: &mut Session<E>,
    offers: u64,
    number: u64,
    action: &Action,
    out: &mut W,
) -> Result<(), Halt>
    requires moment { IsMomentOf (stands_in E.simulation session.old) (Moment.Actions offers) }
    requires there { number < offers }
    requires offered { IsOffer (stands_in E.simulation session.old) number action.now }
    requires at { IsAt (steps_in session.old) (stands_in E.simulation session.old) }
    ensures wrote { Wrote (W.state out.old) (W.state out.new) (trace_lines.action_line
        (model_in (stands_in E.simulation session.old))
        (clock_in (stands_in E.simulation session.old)) offers number action.now)
        (result_err result) }
    ensures steps { OnOk result (steps_in session.new ≡
        steps_in session.old ++ step.Pick number ∷ []) }
    ensures at { OnOk result (IsAt (steps_in session.new)
        (stands_in E.simulation session.new)) }
    ensures setting { setting_in (stands_in E.simulation session.new) ≡
        setting_in (stands_in E.simulation session.old) }
{
    rules_are_known();
    tell_taken(alloc, session, offers, number, action, out)?;
    pick(session, number)?;
    Ok(())
}

/// Lets so much time pass, in clock units, and writes its line.
pub(crate) fn let_pass<E: Engine + Drop, W: Sink>(
    alloc: Global,
    session: &mut Session<E>,
    time: u128,
    out: &mut W,
) -> Result<(), Halt>
    requires moment { IsMomentOf (stands_in E.simulation session.old) (Moment.Time time) }
    requires at { IsAt (steps_in session.old) (stands_in E.simulation session.old) }
    ensures wrote { Wrote (W.state out.old) (W.state out.new) (trace_lines.time_line
        (clock_in (stands_in E.simulation session.old)) time) (result_err result) }
    ensures steps { OnOk result (steps_in session.new ≡
        steps_in session.old ++ step.Pass ∷ []) }
    ensures at { OnOk result (IsAt (steps_in session.new)
        (stands_in E.simulation session.new)) }
    ensures setting { setting_in (stands_in E.simulation session.new) ≡
        setting_in (stands_in E.simulation session.old) }
{
    rules_are_known();
    tell_passing(alloc, session, time, out)?;
    pass(session)?;
    Ok(())
}

// Writes that line.
fn tell_passing<E: Engine + Drop, W: Sink>(
    alloc: Global,
    session: &Session<E>,
    time: u128,
    out: &mut W,
) -> Result<(), Halt>
    requires { IsMomentOf (stands_in E.simulation session.now) (Moment.Time time) }
    ensures { Wrote (W.state out.old) (W.state out.new) (trace_lines.time_line
        (clock_in (stands_in E.simulation session.now)) time) (result_err result) }
{
    rules_are_known();
    let line = time_line(alloc, session.clock(), time)?;
    put(out, line.as_slice())
}

/// Takes the offer of this number, from 0, or says that there is none.
pub(crate) fn reply_pick<E: Engine + Drop, W: Sink>(
    alloc: Global,
    session: &mut Session<E>,
    number: u64,
    out: &mut W,
) -> Result<(), Halt>
    requires { IsAt (steps_in session.old) (stands_in E.simulation session.old) }
    ensures { (line : ℕ) → Replied line (commands.pick number)
        (steps_in session.old) (stands_in E.simulation session.old)
        (steps_in session.new) (stands_in E.simulation session.new)
        (W.state out.old) (W.state out.new) result }
{
    rules_are_known();
    let offers = offers_at(session.moment());
    if number < offers {
        pick_offer(alloc, session, offers, number, out)
    } else {
        refuse_pick(alloc, session, offers, number, out)
    }
}

// Takes it; it is one of so many.
fn pick_offer<E: Engine + Drop, W: Sink>(
    alloc: Global,
    session: &mut Session<E>,
    offers: u64,
    number: u64,
    out: &mut W,
) -> Result<(), Halt>
    requires moment { IsMomentOf (stands_in E.simulation session.old) (Moment.Actions offers) }
    requires there { number < offers }
    requires at { IsAt (steps_in session.old) (stands_in E.simulation session.old) }
    ensures { (line : ℕ) → Replied line (commands.pick number)
        (steps_in session.old) (stands_in E.simulation session.old)
        (steps_in session.new) (stands_in E.simulation session.new)
        (W.state out.old) (W.state out.new) result }
{
    rules_are_known();
    let action = offer_of(session, number)?;
    take_offer(alloc, session, offers, number, &action, out)
}

// Says that of so many offers none has this number.
fn refuse_pick<E: Engine + Drop, W: Sink>(
    alloc: Global,
    session: &Session<E>,
    offers: u64,
    number: u64,
    out: &mut W,
) -> Result<(), Halt>
    requires at { IsAt (steps_in session.now) (stands_in E.simulation session.now) }
    ensures { Wrote (W.state out.old) (W.state out.new)
        (lines.refused_pick_line (clock_in (stands_in E.simulation session.now)) number offers)
        (result_err result) }
{
    rules_are_known();
    let line = refused_pick_line(alloc, session.clock(), number, offers)?;
    put(out, line.as_slice())
}

/// Lets time pass, or says that it does not.
pub(crate) fn reply_pass<E: Engine + Drop, W: Sink>(
    alloc: Global,
    session: &mut Session<E>,
    out: &mut W,
) -> Result<(), Halt>
    requires { IsAt (steps_in session.old) (stands_in E.simulation session.old) }
    ensures { (line : ℕ) → Replied line commands.pass
        (steps_in session.old) (stands_in E.simulation session.old)
        (steps_in session.new) (stands_in E.simulation session.new)
        (W.state out.old) (W.state out.new) result }
{
    rules_are_known();
    match session.moment() {
        Moment::Time(time) => let_pass(alloc, session, time, out),
        _ => refuse_pass(alloc, session, out),
    }
}

// Says that time does not pass now.
fn refuse_pass<E: Engine + Drop, W: Sink>(
    alloc: Global,
    session: &Session<E>,
    out: &mut W,
) -> Result<(), Halt>
    requires at { IsAt (steps_in session.now) (stands_in E.simulation session.now) }
    ensures { Wrote (W.state out.old) (W.state out.new)
        (lines.refused_pass_line (clock_in (stands_in E.simulation session.now)))
        (result_err result) }
{
    rules_are_known();
    let line = refused_pass_line(alloc, session.clock())?;
    put(out, line.as_slice())
}
