//! What the variables of a simulator's processes hold.

ghost use Rattle.std.specs.Prelude.{◌≡◌, true};
ghost use Rattle.pz_sim.specs.pz_term_simulator.Shown.{CanShow};

use pz_term::{Moment, Simulator};
use std::io;

/// The most variables of a process that are shown.
const SHOWN: u32 = 3;

// Whether it is not broken, and has this process.
fn can_show<S: Simulator>(sim: &S, process: u32) -> bool
    ensures { result ≡ true → CanShow (S.simulation sim.now) process }
{
    match sim.moment() {
        Moment::Broken => false,
        _ => process < sim.net().processes(),
    }
}

fn show_value<S: Simulator>(
    rt: &HostRuntime,
    sim: &S,
    process: u32,
    variable: u32,
) -> io::Result<()> {
    if !can_show(sim, process) {
        return println!(rt; "no process {process}");
    }
    let parcel = sim.shown(process, variable)?;
    let values = parcel.values();
    let objects = parcel.objects();
    println!(rt; "value {process} {variable}: {values:?} {objects:?}")
}

/// The first variables of each process; nil where it has none.
pub fn show_values<S: Simulator>(rt: &HostRuntime, sim: &S) -> io::Result<()> {
    for process in 0..sim.net().processes() {
        for variable in 0..SHOWN {
            show_value(rt, sim, process, variable)?;
        }
    }
    Ok(())
}
