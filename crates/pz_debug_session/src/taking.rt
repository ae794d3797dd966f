// Steps of a simulator, each with a count of its own that nobody reads.

ghost use Rattle.std.specs.Prelude.{◌≡◌, ◌≤◌, ◌<◌, ◌+◌, ◌*◌, ◌^◌, length, IfErr, OnOk, OnErr, ℕ};
ghost use Rattle.pz_term_simulator.specs.Simulations.{Simulation, IsMomentOf, Chooses, Passes, IsBroken, setting_in, clock_in};
ghost use Rattle.pz_term_simulator.specs.Refusals.{OnNoSuchOffer, OnChooseNotNow, OnChooseRefused, OnChooseNoMemory, NoActions, OnPassNotNow, OnPassRefused, OnPassNoMemory, NoTime};
ghost use Rattle.pz_debug_session.specs.devices.Leading.{Takes, CanTake, IsShort, Leads, IsWholeAt};

use crate::laws::rules_are_known;
use crate::step::Step;
use pz_term_simulator::{ChooseError, Moment, PassError, Simulator, Steps};
use std::alloc::AllocError;
use std::marker::Brand;
use std::sync::ledger::{Blank, Ledger};

fn choose_in<E: Simulator, L: Ledger>(
    engine: &mut E,
    k: u64,
    ledger: Blank,
) -> Result<(), ChooseError>
    requires name { ledger.name ≡ L.name }
    requires parts { ledger.parts ≡ L.parts }
    requires some { 0 < L.parts }
    ensures ok { OnOk result (Chooses k (E.simulation engine.old) (E.simulation engine.new)) }
    ensures no_such_offer { IfErr result (OnNoSuchOffer
        (λ offers. IsMomentOf (E.simulation engine.old) (Moment.Actions offers)
        × (offers ≤ k))) }
    ensures not_now { IfErr result (OnChooseNotNow
        (λ moment. IsMomentOf (E.simulation engine.old) moment × NoActions moment)) }
    ensures refused { IfErr result (OnChooseRefused (engine.new ≡ engine.old)) }
    ensures broken { IfErr result (OnChooseNoMemory (IsBroken (E.simulation engine.new))) }
    ensures setting { setting_in (E.simulation engine.new) ≡ setting_in
        (E.simulation engine.old) }
{
    let mut steps = Steps::<L>::new(ledger);
    engine.choose(k, &mut steps)
}

fn pass_in<E: Simulator, L: Ledger>(engine: &mut E, ledger: Blank) -> Result<(), PassError>
    requires name { ledger.name ≡ L.name }
    requires parts { ledger.parts ≡ L.parts }
    requires some { 0 < L.parts }
    requires low { clock_in (E.simulation engine.old) < 2 ^ 127 }
    ensures ok { OnOk result (Passes (E.simulation engine.old) (E.simulation engine.new)) }
    ensures short { OnOk result (clock_in (E.simulation engine.new) <
        clock_in (E.simulation engine.old) + 2 ^ 64) }
    ensures not_now { IfErr result (OnPassNotNow
        (λ moment. IsMomentOf (E.simulation engine.old) moment × NoTime moment)) }
    ensures refused { IfErr result (OnPassRefused (engine.new ≡ engine.old)) }
    ensures broken { IfErr result (OnPassNoMemory (IsBroken (E.simulation engine.new))) }
    ensures setting { setting_in (E.simulation engine.new) ≡ setting_in
        (E.simulation engine.old) }
{
    let mut steps = Steps::<L>::new(ledger);
    engine.pass(&mut steps)
}

/// Takes a step that can be taken. The only error is want of memory, and then the simulator is broken.
pub(crate) fn take<E: Simulator>(engine: &mut E, step: Step) -> Result<(), AllocError>
    requires { CanTake step (E.simulation engine.old) }
    ensures ok { OnOk result (Takes step (E.simulation engine.old) (E.simulation engine.new)) }
    ensures short { OnOk result (IsShort step (E.simulation engine.old)
        (E.simulation engine.new)) }
    ensures broken { OnErr result (IsBroken (E.simulation engine.new)) }
    ensures setting { setting_in (E.simulation engine.new) ≡ setting_in
        (E.simulation engine.old) }
{
    match step {
        Step::Pick(k) => choose(engine, k),
        Step::Pass => pass(engine),
    }
}

fn choose<E: Simulator>(engine: &mut E, k: u64) -> Result<(), AllocError>
    requires { (n : ℕ) × IsMomentOf (E.simulation engine.old) (Moment.Actions n) × (k < n) }
    ensures ok { OnOk result (Chooses k (E.simulation engine.old) (E.simulation engine.new)) }
    ensures broken { OnErr result (IsBroken (E.simulation engine.new)) }
    ensures setting { setting_in (E.simulation engine.new) ≡ setting_in
        (E.simulation engine.old) }
{
    rules_are_known();
    match choose_in::<E, Brand>(engine, k, Blank::new(1)) {
        Ok(()) => Ok(()),
        Err(ChooseError::NoMemory) => Err(AllocError),
        Err(ChooseError::NoSuchOffer { .. }) => unreachable!(),
        Err(ChooseError::NotNow(_)) => unreachable!(),
    }
}

fn pass<E: Simulator>(engine: &mut E) -> Result<(), AllocError>
    requires time { (d : ℕ) × IsMomentOf (E.simulation engine.old) (Moment.Time d) }
    requires low { clock_in (E.simulation engine.old) < 2 ^ 127 }
    ensures ok { OnOk result (Passes (E.simulation engine.old) (E.simulation engine.new)) }
    ensures short { OnOk result (clock_in (E.simulation engine.new) <
        clock_in (E.simulation engine.old) + 2 ^ 64) }
    ensures broken { OnErr result (IsBroken (E.simulation engine.new)) }
    ensures setting { setting_in (E.simulation engine.new) ≡ setting_in
        (E.simulation engine.old) }
{
    rules_are_known();
    match pass_in::<E, Brand>(engine, Blank::new(1)) {
        Ok(()) => Ok(()),
        Err(PassError::NoMemory) => Err(AllocError),
        Err(PassError::NotNow(_)) => unreachable!(),
    }
}

/// Takes these steps one after the other, which can be taken, from clock 0 on. The only error is want of
/// memory, and then nothing is said of the simulator.
pub(crate) fn take_all<E: Simulator>(engine: &mut E, steps: &[Step]) -> Result<(), AllocError>
    requires whole { IsWholeAt (E.simulation engine.old) }
    requires leads { (to : Simulation) × Leads (E.simulation engine.old) steps.now to }
    requires start { clock_in (E.simulation engine.old) ≡ 0 }
    requires few { length steps.now < 2 ^ 63 }
    ensures leads { OnOk result (Leads (E.simulation engine.old) steps.now
        (E.simulation engine.new)) }
    ensures low { OnOk result (clock_in (E.simulation engine.new) ≤ 2 ^ 64 * length steps.now) }
{
    rules_are_known();
    for step in steps {
        take(engine, *step)?;
    }
    Ok(())
}
