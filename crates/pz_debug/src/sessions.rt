// A session on a model.
ghost use Rattle.std.specs.Prelude.{◌≡◌, ◌≤◌, ◌<◌, ◌^◌, [], length, IfOk};
ghost use Rattle.pz_bind.specs.pz_classes.CheckedView.{checked_model};
ghost use Rattle.pz_bind.specs.pz_classes_rules.Soundness.{IsSound};
ghost use Rattle.pz_classes_openings.specs.OpeningRules.{Opens};
ghost use Rattle.pz_bind.specs.pz_syntax.Classes.{ModelTree};
ghost use Rattle.pz_sim.specs.pz_term_simulator.Simulations.{Starts, setting_in};
ghost use Rattle.pz_debug_session.specs.Sessions.{steps_in, stands_in};
ghost use Rattle.pz_debug_replies.specs.Replying.{IsAt};
ghost use Rattle.pz_debug.specs.Output.{setting_for, PrintsSession};
ghost use Rattle.pz_debug.specs.devices.Saying.{Says, Answers};

use crate::DebugStatus;
use crate::limits::session_limits;
use pz_bind::Net;
use pz_bind::pz_classes::Checked;
use pz_debug_replies::reply_all;
use pz_debug_session::{Engine, Session};
use pz_io::Sink;
use std::alloc::{AllocError, Global};
use std::mem::drop;

// The session of a model that opens, before its first step. The only error is want of memory.
fn start<E: Engine + Drop>(alloc: Global, checked: Checked) -> Result<Session<E>, AllocError>
    requires opens { Opens (checked_model checked) }
    ensures starts { IfOk result (λ session. Starts (setting_for (checked_model checked))
        (stands_in E.simulation session)) }
    ensures steps { IfOk result (λ session. steps_in session ≡ []) }
{
    match Net::flatten(alloc, &checked) {
        Ok(net) => Session::start(alloc, checked, net, session_limits()),
        Err(error) => {
            drop(checked);
            Err(error)
        }
    }
}

/// Does what these commands ask for, in a session of a model that opens, and writes the replies.
pub(crate) fn debug_model<E: Engine + Drop, W: Sink>(
    alloc: Global,
    checked: Checked,
    commands: &[u8],
    out: &mut W,
) -> DebugStatus
    requires opens { Opens (checked_model checked) }
    requires sound { IsSound (checked_model checked) }
    requires short { length commands.now < 2 ^ 32 }
    ensures { Answers (PrintsSession (checked_model checked) commands.now)
        (W.state out.old) (W.state out.new) result }
{
    pz_debug_session::laws::sessions_go_on();
    match start::<E>(alloc, checked) {
        Ok(session) => debug_session(alloc, session, commands, out),
        Err(_) => DebugStatus::NoMemory,
    }
}

// The same in this session, before its first step.
fn debug_session<E: Engine + Drop, W: Sink>(
    alloc: Global,
    mut session: Session<E>,
    commands: &[u8],
    out: &mut W,
) -> DebugStatus
    requires new { steps_in session ≡ [] }
    requires at { IsAt (steps_in session) (stands_in E.simulation session) }
    requires short { length commands.now < 2 ^ 32 }
    ensures { (m : ModelTree) → setting_in (stands_in E.simulation session) ≡ setting_for m →
        Says (PrintsSession m commands.now) (W.state out.old) (W.state out.new) result }
{
    let replied = reply_all(alloc, &mut session, commands, out);
    drop(session);
    match replied {
        Ok(()) => DebugStatus::Done,
        Err(halt) => DebugStatus::halted(halt),
    }
}
