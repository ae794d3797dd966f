// What a variable holds, in a simulator.

ghost use Rattle.std.specs.Prelude.{IfOk};
ghost use Rattle.pz_term_simulator.specs.Shown.{IsShown, CanShow};
ghost use Rattle.pz_sim.specs.Sims.{simulation_of};

use crate::sim::Sim;
use crate::standing::Standing;
use pz_rules::pz_copy::Parcel;
use pz_term_simulator::shown_at_start;
use std::alloc::AllocError;

impl Sim {
    /// The value of a variable of a process at the moment, as a parcel with all objects to which it
    /// leads; nil where the process has no such variable. The only error is want of memory, and it breaks
    /// nothing.
    ///
    /// Memory was never wanting, and the process is one of the net.
    pub fn shown(&self, process: u32, variable: u32) -> Result<Parcel, AllocError>
        requires { CanShow (simulation_of self.now) process }
        ensures { IfOk result (IsShown (simulation_of self.now) process variable) }
    {
        match &self.standing {
            Standing::Whole(_) | Standing::Stopped(_) => {
                let process = &self.trees[process as usize];
                process.shown(variable)
            }
            Standing::High(_) => shown_at_start(self.alloc, &self.net, process, variable),
            Standing::Broken => unreachable!(),
        }
    }
}
