// The simulator over execution trees is a simulator.

ghost use Rattle.std.specs.Prelude.{◌≡◌};

use crate::sim::Sim;
use pz_bind::Net;
use pz_bind::pz_classes::Checked;
use pz_nodes::Steps;
use pz_rules::pz_copy::Parcel;
use pz_rules::{Action, Limits, Moment};
use pz_term_simulator::{ChooseError, PassError, Simulator};
use std::alloc::AllocError;
use std::sync::ledger::Ledger;

impl Simulator for Sim {
    ghost use Rattle.pz_sim.specs.Sims.{simulation_of};

    ghost simulation = { simulation_of };

    fn moment(&self) -> Moment {
        self.moment()
    }

    fn clock(&self) -> u128 {
        self.clock()
    }

    fn checked(&self) -> &Checked {
        self.checked()
    }

    fn net(&self) -> &Net {
        self.net()
    }

    fn limits(&self) -> Limits {
        self.limits()
    }

    fn offer(&self, k: u64) -> Result<Action, AllocError> {
        self.offer(k)
    }

    fn shown(&self, process: u32, variable: u32) -> Result<Parcel, AllocError> {
        self.shown(process, variable)
    }

    fn choose<L: Ledger>(&mut self, k: u64, steps: &mut Steps<L>) -> Result<(), ChooseError> {
        self.choose(k, steps)
    }

    fn pass<L: Ledger>(&mut self, steps: &mut Steps<L>) -> Result<(), PassError> {
        self.pass(steps)
    }
}
