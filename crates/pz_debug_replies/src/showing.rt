// What a variable of a process holds.

ghost use Rattle.std.specs.Prelude.{◌≡◌, ℕ, MatchOption};
ghost use Rattle.std.specs.Result.{result_err};
ghost use Rattle.pz_io.specs.Writing.{Wrote};
ghost use Rattle.pz_term_simulator.specs.Simulations.{model_in};
ghost use Rattle.pz_debug_commands.specs.Commands as commands;
ghost use Rattle.pz_debug_session.specs.Sessions.{steps_in, stands_in};
ghost use Rattle.pz_debug_replies.specs.Lines as lines;
ghost use Rattle.pz_debug_replies.specs.Shown.{IsVariable};
ghost use Rattle.pz_debug_replies.specs.Replying.{IsAt, Replied};
ghost use Rattle.pz_debug_replies.specs.devices.Searching.{IsFirst};

use crate::laws::rules_are_known;
use crate::lines::show_line;
use crate::names::{find_process, find_variable};
use pz_debug_session::{Engine, Session};
use pz_io::{Halt, Sink, put};
use std::alloc::Global;

// A variable of a process, by their numbers.
#[derive(Clone, Copy)]
struct Place {
    process: u32,
    variable: u32,
}

/// Writes what the variable of this name of the process with this path holds, or that there is none.
pub(crate) fn reply_show<E: Engine + Drop, W: Sink>(
    alloc: Global,
    session: &Session<E>,
    path: &[u8],
    name: &[u8],
    out: &mut W,
) -> Result<(), Halt>
    requires { IsAt (steps_in session.now) (stands_in E.simulation session.now) }
    ensures { (line : ℕ) → Replied line (commands.show path.now name.now)
        (steps_in session.now) (stands_in E.simulation session.now)
        (steps_in session.now) (stands_in E.simulation session.now)
        (W.state out.old) (W.state out.new) result }
{
    rules_are_known();
    match find(session, path, name) {
        Some(place) => tell_value(alloc, session, place, path, name, out),
        None => put(out, b"refused show\n"),
    }
}

// Where the variable of this name of the process with this path is.
fn find<E: Engine + Drop>(session: &Session<E>, path: &[u8], name: &[u8]) -> Option<Place>
    ensures { MatchOption result
        ((i v : ℕ) → IsVariable (model_in (stands_in E.simulation session.now)) path.now name.now
        i v → ⊥)
        (λ place. IsVariable (model_in (stands_in E.simulation session.now)) path.now name.now
        place.process place.variable) }
{
    match find_process(session.net(), path) {
        Some(process) => find_in(session, process, path, name),
        None => None,
    }
}

// The same in this process, which is the first with the path.
fn find_in<E: Engine + Drop>(
    session: &Session<E>,
    process: u32,
    path: &[u8],
    name: &[u8],
) -> Option<Place>
    requires first { IsFirst (model_in (stands_in E.simulation session.now)) path.now process }
    ensures { MatchOption result
        ((i v : ℕ) → IsVariable (model_in (stands_in E.simulation session.now)) path.now name.now
        i v → ⊥)
        (λ place. IsVariable (model_in (stands_in E.simulation session.now)) path.now name.now
        place.process place.variable) }
{
    match find_variable(session.checked(), session.net(), process, name) {
        Some(variable) => Some(Place { process, variable }),
        None => None,
    }
}

// Writes what it holds.
fn tell_value<E: Engine + Drop, W: Sink>(
    alloc: Global,
    session: &Session<E>,
    place: Place,
    path: &[u8],
    name: &[u8],
    out: &mut W,
) -> Result<(), Halt>
    requires at { IsAt (steps_in session.now) (stands_in E.simulation session.now) }
    requires is { IsVariable (model_in (stands_in E.simulation session.now)) path.now name.now
        place.process place.variable }
    ensures { (line : ℕ) → Replied line (commands.show path.now name.now)
        (steps_in session.now) (stands_in E.simulation session.now)
        (steps_in session.now) (stands_in E.simulation session.now)
        (W.state out.old) (W.state out.new) result }
{
    rules_are_known();
    let value = session.shown(place.process, place.variable)?;
    let line = show_line(alloc, session.checked(), path, name, &value)?;
    put(out, line.as_slice())
}
