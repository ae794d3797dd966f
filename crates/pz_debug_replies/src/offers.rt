// The offers of the moment at which a session stands.

ghost use Rattle.std.specs.Prelude.{◌≡◌, ◌<◌, ℕ, IfOk};
ghost use Rattle.std.specs.Result.{result_err};
ghost use Rattle.pz_io.specs.Writing.{Wrote};
ghost use Rattle.pz_rules.specs.declared.action.Action.{Action as TheAction};
ghost use Rattle.pz_trace.specs.Lines as trace_lines;
ghost use Rattle.pz_term_simulator.specs.Simulations.{IsMomentOf, IsOffer, model_in, clock_in};
ghost use Rattle.pz_debug_session.specs.Sessions.{stands_in};
ghost use Rattle.pz_debug_replies.specs.Replies as replies;

use crate::laws::rules_are_known;
use pz_debug_session::{Engine, Session};
use pz_io::{Halt, Sink, put};
use pz_term_simulator::{Action, ChooseError, Moment};
use pz_trace::action_line;
use std::alloc::{AllocError, Global};

/// How many offers the moment counts; none where it is not `Actions`.
pub(crate) fn offers_at(moment: Moment) -> u64
    ensures { result ≡ replies.offers_at moment }
{
    match moment {
        Moment::Actions(offers) => offers,
        _ => 0,
    }
}

/// The offer of this number, from 0. The only error is want of memory, and it breaks nothing.
pub(crate) fn offer_of<E: Engine + Drop>(
    session: &Session<E>,
    number: u64,
) -> Result<Action, AllocError>
    requires { (n : ℕ) × IsMomentOf (stands_in E.simulation session.now) (Moment.Actions n)
        × (number < n) }
    ensures { IfOk result (IsOffer (stands_in E.simulation session.now) number) }
{
    rules_are_known();
    match session.action(number) {
        Ok(action) => Ok(action),
        Err(ChooseError::NoMemory) => Err(AllocError),
        Err(ChooseError::NoSuchOffer { .. }) => unreachable!(),
        Err(ChooseError::NotNow(_)) => unreachable!(),
    }
}

// Its line, where it is taken. The only error is want of memory.
fn line_of<E: Engine + Drop>(
    alloc: Global,
    session: &Session<E>,
    offers: u64,
    number: u64,
    action: &Action,
) -> Result<Vec<u8>, AllocError>
    requires moment { IsMomentOf (stands_in E.simulation session.now) (Moment.Actions offers) }
    requires offered { IsOffer (stands_in E.simulation session.now) number action.now }
    ensures { IfOk result (λ line. line.items ≡ trace_lines.action_line
        (model_in (stands_in E.simulation session.now))
        (clock_in (stands_in E.simulation session.now)) offers number action.now) }
{
    rules_are_known();
    let clock = session.clock();
    action_line(
        alloc,
        session.checked(),
        session.net(),
        clock,
        offers,
        number,
        action,
    )
}

/// Writes that line.
pub(crate) fn tell_taken<E: Engine + Drop, W: Sink>(
    alloc: Global,
    session: &Session<E>,
    offers: u64,
    number: u64,
    action: &Action,
    out: &mut W,
) -> Result<(), Halt>
    requires moment { IsMomentOf (stands_in E.simulation session.now) (Moment.Actions offers) }
    requires offered { IsOffer (stands_in E.simulation session.now) number action.now }
    ensures { Wrote (W.state out.old) (W.state out.new) (trace_lines.action_line
        (model_in (stands_in E.simulation session.now))
        (clock_in (stands_in E.simulation session.now)) offers number action.now)
        (result_err result) }
{
    rules_are_known();
    let line = line_of(alloc, session, offers, number, action)?;
    put(out, line.as_slice())
}
