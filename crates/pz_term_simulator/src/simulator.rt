ghost use Rattle.std.specs.Prelude.{◌≡◌, ◌≤◌, ◌<◌, ◌+◌, ◌^◌, ℕ, IfOk, OnOk, IfErr};
ghost use Rattle.pz_bind.specs.pz_classes.CheckedView.{checked_model};
ghost use Rattle.pz_bind.specs.devices.Nets.{IsNet};
ghost use Rattle.pz_term_simulator.specs.Simulations.{Simulation, IsMomentOf, IsOffer, Chooses, Passes, IsBroken, ClockIs, setting_in, model_in, limits_in, clock_in};
ghost use Rattle.pz_term_simulator.specs.Shown.{IsShown, CanShow};
ghost use Rattle.pz_term_simulator.specs.Refusals.{OnNoSuchOffer, OnChooseNotNow, OnChooseRefused, OnChooseNoMemory, NoActions, OnPassNotNow, OnPassRefused, OnPassNoMemory, NoTime};

use crate::refusal::{ChooseError, PassError};
use pz_bind::Net;
use pz_bind::pz_classes::Checked;
use pz_nodes::Steps;
use pz_rules::pz_copy::Parcel;
use pz_rules::{Action, Limits, Moment};
use std::alloc::AllocError;
use std::sync::ledger::Ledger;

/// What stands for a configuration of a model, says what may happen next there, and goes on to the next
/// one. The steps that are handed to it count what it does, if it counts at all, and are for proofs
/// alone.
pub trait Simulator {
    /// What it stands for.
    ghost simulation: { Self → Simulation };

    /// What may happen next. Takes no memory.
    fn moment(&self) -> Moment
        ensures { IsMomentOf (simulation self.now) result };

    /// The clock, in clock units from the start of the run. Takes no memory.
    fn clock(&self) -> u128
        ensures { ClockIs (simulation self.now) result };

    /// The model that is simulated. Takes no memory.
    fn checked(&self) -> &Checked
        ensures { checked_model result.now ≡ model_in (simulation self.now) };

    /// The net of the model. Takes no memory.
    fn net(&self) -> &Net
        ensures { ∥ IsNet (model_in (simulation self.now)) result.now ∥₁ };

    /// What its evaluations and terms may take, and the edition of the rules by which it goes on. Takes no
    /// memory.
    fn limits(&self) -> Limits
        ensures { result ≡ limits_in (simulation self.now) };

    /// The offer of this number, from 0, which is one of those that the moment counts. The only error is
    /// want of memory, and it breaks nothing.
    fn offer(&self, k: u64) -> Result<Action, AllocError>
        requires { (n : ℕ) × IsMomentOf (simulation self.now) (Moment.Actions n) × (k < n) }
        ensures { IfOk result (IsOffer (simulation self.now) k) };

    /// The value of a variable of a process at the moment, as a parcel with all objects to which it
    /// leads; nil where the process has no such variable. The only error is want of memory, and it breaks
    /// nothing.
    ///
    /// Memory was never wanting, and the process is one of the net.
    fn shown(&self, process: u32, variable: u32) -> Result<Parcel, AllocError>
        requires { CanShow (simulation self.now) process }
        ensures { IfOk result (IsShown (simulation self.now) process variable) };

    /// Chooses the offer of this number, from 0: the action takes place, or the moment becomes
    /// `Stopped` where it ends in a trouble.
    ///
    /// # Errors
    ///
    /// But for `NoMemory`, `NoSuchOffer` comes exactly where there are offers, but none of this
    /// number, and `NotNow` exactly where the moment is not `Actions`; then nothing has changed. After
    /// `NoMemory` the simulator is broken.
    fn choose<L: Ledger>(&mut self, k: u64, steps: &mut Steps<L>) -> Result<(), ChooseError>
        ensures ok { OnOk result (Chooses k (simulation self.old) (simulation self.new)) }
        ensures no_such_offer { IfErr result (OnNoSuchOffer
            (λ offers. IsMomentOf (simulation self.old) (Moment.Actions offers)
            × (offers ≤ k))) }
        ensures not_now { IfErr result (OnChooseNotNow
            (λ moment. IsMomentOf (simulation self.old) moment × NoActions moment)) }
        ensures refused { IfErr result (OnChooseRefused (self.new ≡ self.old)) }
        ensures broken { IfErr result (OnChooseNoMemory (IsBroken (simulation self.new))) }
        ensures setting { setting_in (simulation self.new) ≡ setting_in (simulation self.old) };

    /// Lets time pass, by the least that is left of an active delay, which is less than 2^64 clock units.
    /// The clock is below 2^127.
    ///
    /// # Errors
    ///
    /// But for `NoMemory`, `NotNow` comes exactly where the moment is not `Time`; then nothing has
    /// changed. After `NoMemory` the simulator is broken.
    fn pass<L: Ledger>(&mut self, steps: &mut Steps<L>) -> Result<(), PassError>
        requires low { clock_in (simulation self.old) < 2 ^ 127 }
        ensures ok { OnOk result (Passes (simulation self.old) (simulation self.new)) }
        ensures short { OnOk result (clock_in (simulation self.new) <
            clock_in (simulation self.old) + 2 ^ 64) }
        ensures not_now { IfErr result (OnPassNotNow
            (λ moment. IsMomentOf (simulation self.old) moment × NoTime moment)) }
        ensures refused { IfErr result (OnPassRefused (self.new ≡ self.old)) }
        ensures broken { IfErr result (OnPassNoMemory (IsBroken (simulation self.new))) }
        ensures setting { setting_in (simulation self.new) ≡ setting_in (simulation self.old) };
}
