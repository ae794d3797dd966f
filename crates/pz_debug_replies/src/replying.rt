// Replies to commands.

ghost use Rattle.std.specs.Prelude.{◌≡◌};
ghost use Rattle.std.specs.Result.{result_err};
ghost use Rattle.pz_io.specs.Writing.{Wrote};
ghost use Rattle.pz_debug_commands.specs.CommandView.{command_of};
ghost use Rattle.pz_debug_session.specs.Sessions.{steps_in, stands_in};
ghost use Rattle.pz_debug_replies.specs.Lines as lines;
ghost use Rattle.pz_debug_replies.specs.Replying.{IsAt, Replied};

use crate::advancing::{Wanted, advance};
use crate::going_back::reply_back;
use crate::laws::rules_are_known;
use crate::lines::refused_command_line;
use crate::menu::reply_menu;
use crate::showing::reply_show;
use crate::stepping::{reply_pass, reply_pick};
use pz_debug_commands::{Command, Numbered};
use pz_debug_session::{Engine, Session};
use pz_io::{Halt, Sink, put};
use std::alloc::Global;

/// Does what a command asks for and writes the reply to it. Each line of the reply is written before what it
/// says is done, but for that of `back`.
///
/// The session stands where its steps lead, as it does again afterwards, unless memory was wanting or a write
/// failed; and its clock is at most 2^64 units for each step.
pub fn reply<E: Engine + Drop, W: Sink>(
    alloc: Global,
    session: &mut Session<E>,
    next: Numbered<'_>,
    out: &mut W,
) -> Result<(), Halt>
    requires { IsAt (steps_in session.old) (stands_in E.simulation session.old) }
    ensures { Replied next.entry.line (command_of next.entry.command)
        (steps_in session.old) (stands_in E.simulation session.old)
        (steps_in session.new) (stands_in E.simulation session.new)
        (W.state out.old) (W.state out.new) result }
{
    rules_are_known();
    match next.command {
        Command::Menu => reply_menu(alloc, session, out),
        Command::Pick(number) => reply_pick(alloc, session, number, out),
        Command::Pass => reply_pass(alloc, session, out),
        Command::Run(most) => advance(alloc, session, Wanted::Nothing, most, out),
        Command::Until { message, most } => {
            advance(alloc, session, Wanted::Message(message), most, out)
        }
        Command::Back(n) => reply_back(alloc, session, n, out),
        Command::Show { path, name } => reply_show(alloc, session, path, name, out),
        Command::Unknown => refuse(alloc, next.line, out),
    }
}

// Says that the line of this number is no command.
fn refuse<W: Sink>(alloc: Global, line: u64, out: &mut W) -> Result<(), Halt>
    ensures { Wrote (W.state out.old) (W.state out.new) (lines.refused_command_line line)
        (result_err result) }
{
    rules_are_known();
    let line = refused_command_line(alloc, line)?;
    put(out, line.as_slice())
}
