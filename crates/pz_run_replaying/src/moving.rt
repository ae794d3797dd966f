// How a simulator goes on as a line of a trace tells.

ghost use Rattle.std.specs.Prelude.{◌≡◌, ◌<◌, ◌+◌, ◌^◌, ℕ, suc, OnOk, IsOkUnless};
ghost use Rattle.std.specs.Result.{result_err};
ghost use Rattle.pz_io.specs.Writing.{Wrote};
ghost use Rattle.pz_term_simulator.specs.Simulations.{IsMomentOf, Chooses, Passes, setting_in, clock_in};
ghost use Rattle.pz_term_simulator.specs.devices.Room.{HasRoomFor};
ghost use Rattle.pz_run_replaying.specs.devices.Judging.{MayMove, Moves};

use crate::judging::Move;
use crate::laws::rules_are_known;
use pz_io::{Halt, Sink, put};
use pz_term_simulator::{ChooseError, PassError, Simulator, Steps};
use std::sync::ledger::Ledger;

// Takes an offer that is there.
fn act<S: Simulator, L: Ledger>(
    sim: &mut S,
    offers: u64,
    number: u64,
    steps: &mut Steps<L>,
) -> Result<(), Halt>
    requires { MayMove (S.simulation sim.old) (Move.Act offers number) }
    ensures chooses { OnOk result (Chooses number (S.simulation sim.old)
        (S.simulation sim.new)) }
    ensures setting { setting_in (S.simulation sim.new) ≡ setting_in (S.simulation sim.old) }
    ensures memory { IsOkUnless result Halt.NoMemory }
{
    rules_are_known();
    match sim.choose(number, steps) {
        Ok(()) => Ok(()),
        Err(ChooseError::NoMemory) => Err(Halt::NoMemory),
        Err(ChooseError::NoSuchOffer { .. }) => unreachable!(),
        Err(ChooseError::NotNow(_)) => unreachable!(),
    }
}

// Lets so much time pass, which can.
fn wait<S: Simulator, L: Ledger>(sim: &mut S, time: u128, steps: &mut Steps<L>) -> Result<(), Halt>
    requires may { MayMove (S.simulation sim.old) (Move.Wait time) }
    requires low { clock_in (S.simulation sim.old) < 2 ^ 127 }
    ensures passes { OnOk result (Passes (S.simulation sim.old) (S.simulation sim.new)) }
    ensures short { OnOk result (clock_in (S.simulation sim.new) <
        clock_in (S.simulation sim.old) + 2 ^ 64) }
    ensures setting { setting_in (S.simulation sim.new) ≡ setting_in (S.simulation sim.old) }
    ensures memory { IsOkUnless result Halt.NoMemory }
{
    rules_are_known();
    match sim.pass(steps) {
        Ok(()) => Ok(()),
        Err(PassError::NoMemory) => Err(Halt::NoMemory),
        Err(PassError::NotNow(_)) => unreachable!(),
    }
}

/// Writes the line of a move, and then makes it, as a run does. Which of the two is first is not told by the
/// clauses, and nothing that is promised depends on it: where either fails, the replay ends, a front of the
/// text was written, and of the simulator no more is said than that its setting is the same.
pub(crate) fn go<S: Simulator, L: Ledger, W: Sink>(
    sim: &mut S,
    step: Move,
    line: &[u8],
    steps: &mut Steps<L>,
    out: &mut W,
) -> Result<(), Halt>
    requires may { MayMove (S.simulation sim.old) step }
    requires room { HasRoomFor 0 (S.simulation sim.old) }
    ensures moves { OnOk result (Moves step (S.simulation sim.old) (S.simulation sim.new)) }
    ensures room { (left : ℕ) → HasRoomFor (suc left) (S.simulation sim.old) →
        OnOk result (HasRoomFor left (S.simulation sim.new)) }
    ensures setting { setting_in (S.simulation sim.new) ≡ setting_in (S.simulation sim.old) }
    ensures wrote { Wrote (W.state out.old) (W.state out.new) line.now (result_err result) }
{
    rules_are_known();
    put(out, line)?;
    match step {
        Move::Act { offers, number } => act(sim, offers, number, steps),
        Move::Wait { time } => wait(sim, time, steps),
    }
}
