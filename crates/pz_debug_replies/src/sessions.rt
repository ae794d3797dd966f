// Whole sessions.

ghost use Rattle.std.specs.Prelude.{◌≡◌, ◌<◌, ◌-◌, ◌^◌, [], length};
ghost use Rattle.pz_term_simulator.specs.Simulations.{setting_in};
ghost use Rattle.pz_debug_session.specs.Sessions.{steps_in, stands_in};
ghost use Rattle.pz_debug_replies.specs.Replying.{IsAt, WroteSession};

use crate::laws::rules_are_known;
use crate::replying::reply;
use pz_debug_commands::Commands;
use pz_debug_session::{Engine, Session};
use pz_io::{Halt, Sink};
use std::alloc::Global;

/// Does what the commands of a text ask for, one after the other, and writes the reply to each. The session
/// is one before its first step, of a sound model that opens.
pub fn reply_all<E: Engine + Drop, W: Sink>(
    alloc: Global,
    session: &mut Session<E>,
    text: &[u8],
    out: &mut W,
) -> Result<(), Halt>
    requires new { steps_in session.old ≡ [] }
    requires at { IsAt (steps_in session.old) (stands_in E.simulation session.old) }
    requires short { length text.now < 2 ^ 32 }
    ensures { WroteSession (setting_in (stands_in E.simulation session.old)) text.now
        (W.state out.old) (W.state out.new) result }
{
    rules_are_known();
    let mut commands = Commands::new(text, 1);
    'commands: loop {
        let Some(next) = commands.next() else {
            return Ok(());
        };
        reply(alloc, session, next, out)?;
    }
}
