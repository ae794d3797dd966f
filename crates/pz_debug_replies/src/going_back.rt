// Steps that are taken back.

ghost use Rattle.std.specs.Prelude.{◌≡◌, ℕ, length};
ghost use Rattle.std.specs.Result.{result_err};
ghost use Rattle.pz_io.specs.Writing.{Wrote};
ghost use Rattle.pz_term_simulator.specs.Simulations.{clock_in};
ghost use Rattle.pz_debug_commands.specs.Commands as commands;
ghost use Rattle.pz_debug_session.specs.Sessions.{steps_in, stands_in};
ghost use Rattle.pz_debug_replies.specs.Lines as lines;
ghost use Rattle.pz_debug_replies.specs.Replying.{IsAt, Replied};

use crate::laws::rules_are_known;
use crate::lines::{back_line, refused_back_line};
use pz_debug_session::{BackError, Engine, Session};
use pz_io::{Halt, Sink, put};
use std::alloc::Global;

/// Takes the last steps back, so many of them, and writes where the session stands then; or says that it has
/// fewer.
pub(crate) fn reply_back<E: Engine + Drop, W: Sink>(
    alloc: Global,
    session: &mut Session<E>,
    n: u64,
    out: &mut W,
) -> Result<(), Halt>
    requires { IsAt (steps_in session.old) (stands_in E.simulation session.old) }
    ensures { (line : ℕ) → Replied line (commands.back n)
        (steps_in session.old) (stands_in E.simulation session.old)
        (steps_in session.new) (stands_in E.simulation session.new)
        (W.state out.old) (W.state out.new) result }
{
    rules_are_known();
    match session.back(n) {
        Ok(()) => tell_back(alloc, session, out),
        Err(BackError::TooFar { steps }) => refuse_back(alloc, n, steps, out),
        Err(BackError::NoMemory) => Err(Halt::NoMemory),
    }
}

// Writes how many steps are left, and the clock after them.
fn tell_back<E: Engine + Drop, W: Sink>(
    alloc: Global,
    session: &Session<E>,
    out: &mut W,
) -> Result<(), Halt>
    requires { IsAt (steps_in session.now) (stands_in E.simulation session.now) }
    ensures { Wrote (W.state out.old) (W.state out.new)
        (lines.back_line (length (steps_in session.now))
        (clock_in (stands_in E.simulation session.now))) (result_err result) }
{
    rules_are_known();
    let line = back_line(alloc, session.steps(), session.clock())?;
    put(out, line.as_slice())
}

// Says that there are only so many steps.
fn refuse_back<W: Sink>(alloc: Global, n: u64, steps: u64, out: &mut W) -> Result<(), Halt>
    ensures { Wrote (W.state out.old) (W.state out.new) (lines.refused_back_line n steps)
        (result_err result) }
{
    rules_are_known();
    let line = refused_back_line(alloc, n, steps)?;
    put(out, line.as_slice())
}
