// Steps that a session takes by itself.

ghost use Rattle.std.specs.Prelude.{◌≡◌};
ghost use Rattle.pz_term_simulator.specs.Simulations.{IsMomentOf, IsOffer};
ghost use Rattle.pz_debug_session.specs.Sessions.{steps_in, stands_in};
ghost use Rattle.pz_debug_replies.specs.Advancing as spec;
ghost use Rattle.pz_debug_replies.specs.Replying.{IsAt};
ghost use Rattle.pz_debug_replies.specs.devices.Advanced.{message_of, WentOn, Advanced};

use crate::laws::rules_are_known;
use crate::offers::offer_of;
use crate::stepping::{let_pass, take_offer};
use pz_debug_session::{Engine, Session};
use pz_io::{Halt, Sink};
use pz_term_simulator::{Action, Moment};
use std::alloc::Global;

/// The message behind whose first communication no further step is taken, if there is one.
#[derive(Clone, Copy)]
pub(crate) enum Wanted<'a> {
    Nothing,
    Message(&'a [u8]),
}

/// What comes behind one more step.
#[derive(Clone, Copy)]
enum Going {
    /// It was taken.
    Further,
    /// Nothing: it was the last, or none is possible.
    Ended,
}

// Whether this is a communication of the message.
fn is_wanted(wanted: Wanted<'_>, action: &Action) -> bool
    ensures { result ≡ spec.is_wanted (message_of wanted.entry) action.now }
{
    match (wanted, action) {
        (Wanted::Message(name), Action::Comm { message, .. }) => message.as_str().as_bytes()
            == name,
        (Wanted::Message(_), Action::Internal { .. }) | (Wanted::Nothing, _) => false,
    }
}

/// Takes so many steps, the first offer where there is one, else a passing of time, and writes their lines:
/// fewer where none is possible, and none behind the first communication of the message.
pub(crate) fn advance<E: Engine + Drop, W: Sink>(
    alloc: Global,
    session: &mut Session<E>,
    wanted: Wanted<'_>,
    most: u64,
    out: &mut W,
) -> Result<(), Halt>
    requires { IsAt (steps_in session.old) (stands_in E.simulation session.old) }
    ensures { Advanced (message_of wanted.entry)
        (steps_in session.old) (stands_in E.simulation session.old)
        (steps_in session.new) (stands_in E.simulation session.new)
        (W.state out.old) (W.state out.new) most result }
{
    rules_are_known();
    for step in 0..most {
        let _taken = step;
        match go_on(alloc, session, wanted, out)? {
            Going::Further => {}
            Going::Ended => return Ok(()),
        }
    }
    Ok(())
}

// Takes one more step, if one is possible.
fn go_on<E: Engine + Drop, W: Sink>(
    alloc: Global,
    session: &mut Session<E>,
    wanted: Wanted<'_>,
    out: &mut W,
) -> Result<Going, Halt>
    requires { IsAt (steps_in session.old) (stands_in E.simulation session.old) }
    ensures { WentOn (message_of wanted.entry)
        (steps_in session.old) (stands_in E.simulation session.old)
        (steps_in session.new) (stands_in E.simulation session.new)
        (W.state out.old) (W.state out.new) result }
{
    rules_are_known();
    match session.moment() {
        Moment::Actions(offers) => go_on_acting(alloc, session, offers, wanted, out),
        Moment::Time(time) => go_on_passing(alloc, session, time, wanted, out),
        _ => Ok(Going::Ended),
    }
}

// Takes the first of so many offers.
fn go_on_acting<E: Engine + Drop, W: Sink>(
    alloc: Global,
    session: &mut Session<E>,
    offers: u64,
    wanted: Wanted<'_>,
    out: &mut W,
) -> Result<Going, Halt>
    requires moment { IsMomentOf (stands_in E.simulation session.old) (Moment.Actions offers) }
    requires at { IsAt (steps_in session.old) (stands_in E.simulation session.old) }
    ensures { WentOn (message_of wanted.entry)
        (steps_in session.old) (stands_in E.simulation session.old)
        (steps_in session.new) (stands_in E.simulation session.new)
        (W.state out.old) (W.state out.new) result }
{
    rules_are_known();
    let action = offer_of(session, 0)?;
    take_first(alloc, session, offers, &action, wanted, out)
}

// The same of this action, which is the first offer.
fn take_first<E: Engine + Drop, W: Sink>(
    alloc: Global,
    session: &mut Session<E>,
    offers: u64,
    action: &Action,
    wanted: Wanted<'_>,
    out: &mut W,
) -> Result<Going, Halt>
    requires moment { IsMomentOf (stands_in E.simulation session.old) (Moment.Actions offers) }
    requires offered { IsOffer (stands_in E.simulation session.old) 0 action.now }
    requires at { IsAt (steps_in session.old) (stands_in E.simulation session.old) }
    ensures { WentOn (message_of wanted.entry)
        (steps_in session.old) (stands_in E.simulation session.old)
        (steps_in session.new) (stands_in E.simulation session.new)
        (W.state out.old) (W.state out.new) result }
{
    rules_are_known();
    take_offer(alloc, session, offers, 0, action, out)?;
    if is_wanted(wanted, action) {
        Ok(Going::Ended)
    } else {
        Ok(Going::Further)
    }
}

// Lets so much time pass, in clock units.
fn go_on_passing<E: Engine + Drop, W: Sink>(
    alloc: Global,
    session: &mut Session<E>,
    time: u128,
    wanted: Wanted<'_>,
    out: &mut W,
) -> Result<Going, Halt>
    requires moment { IsMomentOf (stands_in E.simulation session.old) (Moment.Time time) }
    requires at { IsAt (steps_in session.old) (stands_in E.simulation session.old) }
    ensures { WentOn (message_of wanted.entry)
        (steps_in session.old) (stands_in E.simulation session.old)
        (steps_in session.new) (stands_in E.simulation session.new)
        (W.state out.old) (W.state out.new) result }
{
    rules_are_known();
    let_pass(alloc, session, time, out)?;
    Ok(Going::Further)
}
