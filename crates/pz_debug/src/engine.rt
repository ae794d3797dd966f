// Execution trees as the engine of sessions.

use pz_bind::Net;
use pz_bind::pz_classes::Checked;
use pz_debug_session::Engine;
use pz_sim::Sim;
use pz_sim::pz_term_simulator::{
    Action, ChooseError, Limits, Moment, Parcel, PassError, Simulator, Steps,
};
use std::alloc::{AllocError, Global};
use std::sync::ledger::Ledger;

/// The simulator over execution trees, as it is started again for a session that goes back. A type of this
/// crate, since neither `Sim` nor `Engine` is one; so what stands below needs no simulator.
#[derive(Drop)]
pub(crate) struct Trees {
    sim: Sim,
}

impl Simulator for Trees {
    ghost use Rattle.pz_sim.specs.Sims.{simulation_of};

    ghost simulation = { λ trees. simulation_of trees.sim };

    fn moment(&self) -> Moment {
        self.sim.moment()
    }

    fn clock(&self) -> u128 {
        self.sim.clock()
    }

    fn checked(&self) -> &Checked {
        self.sim.checked()
    }

    fn net(&self) -> &Net {
        self.sim.net()
    }

    fn limits(&self) -> Limits {
        self.sim.limits()
    }

    fn offer(&self, k: u64) -> Result<Action, AllocError> {
        self.sim.offer(k)
    }

    fn shown(&self, process: u32, variable: u32) -> Result<Parcel, AllocError> {
        self.sim.shown(process, variable)
    }

    fn choose<L: Ledger>(&mut self, k: u64, steps: &mut Steps<L>) -> Result<(), ChooseError> {
        self.sim.choose(k, steps)
    }

    fn pass<L: Ledger>(&mut self, steps: &mut Steps<L>) -> Result<(), PassError> {
        self.sim.pass(steps)
    }
}

impl Engine for Trees {
    fn start(
        alloc: Global,
        checked: Checked,
        net: Net,
        limits: Limits,
    ) -> Result<Trees, AllocError> {
        let sim = Sim::start(alloc, checked, net, limits)?;
        Ok(Trees { sim })
    }
}
