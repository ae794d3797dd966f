//! What a simulator says of where it stands.

ghost use Rattle.std.specs.Prelude.{ℕ, ◌<◌};
ghost use Rattle.pz_sim.specs.pz_term_simulator.Simulations.{IsMomentOf};

use pz_rules::pz_copy::Parcel;
use pz_rules::pz_offer::End;
use pz_rules::pz_syntax::Name;
use pz_term::{Action, Moment, Simulator};
use std::io;

// The number of the process, and those of the children on the way to the part, each after a point.
fn show_end(rt: &HostRuntime, end: &End) -> io::Result<()> {
    let process = end.process;
    print!(rt; "{process}")?;
    for child in end.place.as_slice() {
        print!(rt; ".{child}")?;
    }
    Ok(())
}

fn show_message(rt: &HostRuntime, message: &Name, parcel: &Parcel) -> io::Result<()> {
    let message = message.as_str();
    let values = parcel.values();
    print!(rt; " ! {message} {values:?} -> ")
}

fn show_offer(rt: &HostRuntime, number: u64, action: &Action) -> io::Result<()> {
    print!(rt; "offer {number}: ")?;
    match action {
        Action::Internal { at, kind, pos } => {
            show_end(rt, at)?;
            println!(rt; " {kind:?} {}:{}", pos.line, pos.column)
        }
        Action::Comm {
            wire,
            sender,
            receiver,
            message,
            parcel,
        } => {
            print!(rt; "wire {wire} ")?;
            show_end(rt, sender)?;
            show_message(rt, message, parcel)?;
            show_end(rt, receiver)?;
            println!(rt;)
        }
    }
}

fn show_nth<S: Simulator>(rt: &HostRuntime, sim: &S, number: u64) -> io::Result<()>
    requires { (n : ℕ) × IsMomentOf (S.simulation sim.now) (Moment.Actions n) × (number < n) }
{
    let action = sim.offer(number)?;
    show_offer(rt, number, &action)
}

fn show_so_many<S: Simulator>(rt: &HostRuntime, sim: &S, offers: u64) -> io::Result<()>
    requires { IsMomentOf (S.simulation sim.now) (Moment.Actions offers) }
{
    for number in 0..offers {
        show_nth(rt, sim, number)?;
    }
    Ok(())
}

/// The offers of a simulator, each with its number.
pub fn show_offers<S: Simulator>(rt: &HostRuntime, sim: &S) -> io::Result<()> {
    match sim.moment() {
        Moment::Actions(offers) => show_so_many(rt, sim, offers),
        _ => Ok(()),
    }
}

/// The clock, the moment and the offers.
pub fn show_moment<S: Simulator>(rt: &HostRuntime, sim: &S) -> io::Result<()> {
    let clock = sim.clock();
    let moment = sim.moment();
    println!(rt; "{clock} {moment:?}")?;
    show_offers(rt, sim)
}
