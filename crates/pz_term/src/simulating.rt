// The plain simulator is a simulator. It counts nothing.

ghost use Rattle.std.specs.Prelude.{◌≡◌};

use crate::copying::copy_action;
use crate::plain::Plain;
use pz_bind::Net;
use pz_bind::pz_classes::Checked;
use pz_nodes::Steps;
use pz_rules::pz_copy::Parcel;
use pz_rules::{Action, Limits, Moment};
use pz_term_simulator::laws::simulators_show_one_moment;
use pz_term_simulator::{ChooseError, PassError, Simulator};
use std::alloc::AllocError;
use std::sync::ledger::Ledger;

impl Simulator for Plain {
    ghost use Rattle.pz_term.specs.Plains.{simulation_of};

    ghost simulation = { simulation_of };

    fn moment(&self) -> Moment {
        self.moment()
    }

    fn clock(&self) -> u128 {
        self.clock()
    }

    fn checked(&self) -> &Checked {
        self.checked()
    }

    fn net(&self) -> &Net {
        self.net()
    }

    fn limits(&self) -> Limits {
        self.limits()
    }

    fn offer(&self, k: u64) -> Result<Action, AllocError> {
        simulators_show_one_moment();
        let offers = self.offers();
        let action = &offers[k as usize];
        copy_action(action)
    }

    fn shown(&self, process: u32, variable: u32) -> Result<Parcel, AllocError> {
        self.shown(process, variable)
    }

    fn choose<L: Ledger>(&mut self, k: u64, _steps: &mut Steps<L>) -> Result<(), ChooseError> {
        self.choose(k)
    }

    fn pass<L: Ledger>(&mut self, _steps: &mut Steps<L>) -> Result<(), PassError> {
        self.pass()
    }
}
