// What may happen next.

ghost use Rattle.std.specs.Prelude.{◌≡◌, ◌<◌, ◌++◌, ℕ, List, Some, IfOk};
ghost use Rattle.std.specs.Result.{result_err};
ghost use Rattle.pz_io.specs.Writing.{Wrote};
ghost use Rattle.pz_rules.specs.declared.action.Action.{Action as TheAction};
ghost use Rattle.pz_trace.specs.Lines as trace_lines;
ghost use Rattle.pz_term_simulator.specs.Simulations.{IsMomentOf, AreOffersOf, IsOffer, model_in, clock_in};
ghost use Rattle.pz_debug_commands.specs.Commands.{menu};
ghost use Rattle.pz_debug_session.specs.Sessions.{steps_in, stands_in};
ghost use Rattle.pz_debug_replies.specs.Lines as lines;
ghost use Rattle.pz_debug_replies.specs.Replies.{ending_at};
ghost use Rattle.pz_debug_replies.specs.Replying.{IsAt, Replied};

use crate::laws::rules_are_known;
use crate::lines::{menu_line, offer_line, waiting_line};
use crate::offers::offer_of;
use pz_debug_session::{Engine, Session};
use pz_io::{Halt, Sink, put};
use pz_term_simulator::Moment;
use pz_trace::{Ending, end_line};
use std::alloc::{AllocError, Global};

/// Writes what may happen next: the offers, or how much time would pass, or how the run ends.
pub(crate) fn reply_menu<E: Engine + Drop, W: Sink>(
    alloc: Global,
    session: &Session<E>,
    out: &mut W,
) -> Result<(), Halt>
    requires { IsAt (steps_in session.now) (stands_in E.simulation session.now) }
    ensures { (line : ℕ) → Replied line menu
        (steps_in session.now) (stands_in E.simulation session.now)
        (steps_in session.now) (stands_in E.simulation session.now)
        (W.state out.old) (W.state out.new) result }
{
    rules_are_known();
    match session.moment() {
        Moment::Actions(offers) => tell_offers(alloc, session, offers, out),
        Moment::Time(time) => tell_waiting(alloc, session, time, out),
        Moment::Finished => tell_end(alloc, session, Ending::End, out),
        Moment::Deadlock => tell_end(alloc, session, Ending::Deadlock, out),
        Moment::Faulty(trouble) => tell_end(alloc, session, Ending::Trouble(trouble), out),
        Moment::Stopped(trouble) => tell_end(alloc, session, Ending::Trouble(trouble), out),
        Moment::Broken => unreachable!(),
    }
}

// Writes how many offers there are, and a line for each in order.
fn tell_offers<E: Engine + Drop, W: Sink>(
    alloc: Global,
    session: &Session<E>,
    offers: u64,
    out: &mut W,
) -> Result<(), Halt>
    requires moment { IsMomentOf (stands_in E.simulation session.now) (Moment.Actions offers) }
    ensures { (actions : List TheAction) →
        AreOffersOf (stands_in E.simulation session.now) actions →
        Wrote (W.state out.old) (W.state out.new)
        (lines.menu_line (clock_in (stands_in E.simulation session.now)) offers
        ++ lines.offers_text (model_in (stands_in E.simulation session.now)) 0 actions)
        (result_err result) }
{
    rules_are_known();
    tell_count(alloc, session, offers, out)?;
    tell_each(alloc, session, offers, out)
}

// Writes how many offers there are.
fn tell_count<E: Engine + Drop, W: Sink>(
    alloc: Global,
    session: &Session<E>,
    offers: u64,
    out: &mut W,
) -> Result<(), Halt>
    requires { IsMomentOf (stands_in E.simulation session.now) (Moment.Actions offers) }
    ensures { Wrote (W.state out.old) (W.state out.new)
        (lines.menu_line (clock_in (stands_in E.simulation session.now)) offers)
        (result_err result) }
{
    rules_are_known();
    let line = menu_line(alloc, session.clock(), offers)?;
    put(out, line.as_slice())
}

// The line of the offer of this number, from 0. The only error is want of memory.
fn offered_line<E: Engine + Drop>(
    alloc: Global,
    session: &Session<E>,
    number: u64,
) -> Result<Vec<u8>, AllocError>
    requires { (n : ℕ) × IsMomentOf (stands_in E.simulation session.now) (Moment.Actions n)
        × (number < n) }
    ensures { IfOk result (λ line. (a : TheAction) →
        IsOffer (stands_in E.simulation session.now) number a →
        line.items ≡ lines.offer_line (model_in (stands_in E.simulation session.now)) number a) }
{
    rules_are_known();
    let action = offer_of(session, number)?;
    offer_line(alloc, session.checked(), session.net(), number, &action)
}

// Writes it.
fn tell_offer<E: Engine + Drop, W: Sink>(
    alloc: Global,
    session: &Session<E>,
    number: u64,
    out: &mut W,
) -> Result<(), Halt>
    requires { (n : ℕ) × IsMomentOf (stands_in E.simulation session.now) (Moment.Actions n)
        × (number < n) }
    ensures { (a : TheAction) → IsOffer (stands_in E.simulation session.now) number a →
        Wrote (W.state out.old) (W.state out.new)
        (lines.offer_line (model_in (stands_in E.simulation session.now)) number a)
        (result_err result) }
{
    rules_are_known();
    let line = offered_line(alloc, session, number)?;
    put(out, line.as_slice())
}

// Writes a line for each of so many offers in order.
fn tell_each<E: Engine + Drop, W: Sink>(
    alloc: Global,
    session: &Session<E>,
    offers: u64,
    out: &mut W,
) -> Result<(), Halt>
    requires { IsMomentOf (stands_in E.simulation session.now) (Moment.Actions offers) }
    ensures { (actions : List TheAction) →
        AreOffersOf (stands_in E.simulation session.now) actions →
        Wrote (W.state out.old) (W.state out.new)
        (lines.offers_text (model_in (stands_in E.simulation session.now)) 0 actions)
        (result_err result) }
{
    rules_are_known();
    for number in 0..offers {
        tell_offer(alloc, session, number, out)?;
    }
    Ok(())
}

// Writes how much time would pass, in clock units.
fn tell_waiting<E: Engine + Drop, W: Sink>(
    alloc: Global,
    session: &Session<E>,
    time: u128,
    out: &mut W,
) -> Result<(), Halt>
    requires { IsMomentOf (stands_in E.simulation session.now) (Moment.Time time) }
    ensures { Wrote (W.state out.old) (W.state out.new)
        (lines.waiting_line (clock_in (stands_in E.simulation session.now)) time)
        (result_err result) }
{
    rules_are_known();
    let line = waiting_line(alloc, session.clock(), time)?;
    put(out, line.as_slice())
}

// Writes the line in which a run ends so.
fn tell_end<E: Engine + Drop, W: Sink>(
    alloc: Global,
    session: &Session<E>,
    ending: Ending,
    out: &mut W,
) -> Result<(), Halt>
    requires at { IsAt (steps_in session.now) (stands_in E.simulation session.now) }
    requires over { (m : Moment) × IsMomentOf (stands_in E.simulation session.now) m
        × (ending_at m ≡ Some ending) }
    ensures { Wrote (W.state out.old) (W.state out.new)
        (trace_lines.end_line (model_in (stands_in E.simulation session.now))
        (clock_in (stands_in E.simulation session.now)) ending) (result_err result) }
{
    rules_are_known();
    let line = end_line(alloc, session.net(), session.clock(), &ending)?;
    put(out, line.as_slice())
}
