ghost use Rattle.std.specs.Prelude.{◌≡◌, ◌≤◌, ◌<◌, ◌+◌, ◌-◌, ◌*◌, ◌^◌, ℕ, [], ◌∷◌, ◌++◌, length, take, IfOk, OnOk, IfErr, OnErr, Err};
ghost use Rattle.pz_bind.specs.pz_classes.CheckedView.{checked_model};
ghost use Rattle.pz_classes_openings.specs.OpeningRules.{Opens};
ghost use Rattle.pz_bind.specs.devices.Nets.{IsNet};
ghost use Rattle.pz_rules.specs.declared.limits.Edition.TheVariants.{Two};
ghost use Rattle.pz_term_processes.specs.Standing.{setting_of};
ghost use Rattle.pz_term_simulator.specs.Simulations.{Starts, IsMomentOf, IsOffer, Chooses, Passes, IsBroken, ClockIs, setting_in, model_in, limits_in, clock_in};
ghost use Rattle.pz_term_simulator.specs.Shown.{IsShown, CanShow};
ghost use Rattle.pz_term_simulator.specs.Refusals.{OnNoSuchOffer, OnChooseNotNow, OnChooseRefused, OnChooseNoMemory, NoActions, OnPassNotNow, OnPassRefused, OnPassNoMemory, NoTime};
ghost use Rattle.pz_debug_session.specs.declared.step.Step.TheVariants as step;
ghost use Rattle.pz_debug_session.specs.Steps.{StandsLow};
ghost use Rattle.pz_debug_session.specs.Sessions.{steps_in, stands_in};
ghost use Rattle.pz_debug_session.specs.Refusals.{OnTooFar};
ghost use Rattle.pz_debug_session.specs.devices.Leading.{Takes, CanTake, IsShort};

use crate::again::play_again;
use crate::engine::Engine;
use crate::refusal::BackError;
use crate::step::Step;
use crate::taking::take;
use pz_bind::Net;
use pz_bind::pz_classes::Checked;
use pz_term_simulator::{Action, ChooseError, Limits, Moment, Parcel, PassError};
use std::alloc::{AllocError, Global};

/// A stepping session: a simulator, and the steps that it has taken from the start of a run on. It keeps
/// nothing else of the run.
#[derive(Drop)]
pub struct Session<E> {
    alloc: Global,
    engine: E,
    steps: Vec<Step>,
    // Memory was wanting for the list of steps.
    lost: bool,
}

impl<E: Engine + Drop> Session<E> {
    /// The session of a model before its first step, whose net this is. The only error is want of memory.
    ///
    /// In edition Two no method of the model begins with itself, and none opens as too much (C23, C24).
    pub fn start(
        alloc: Global,
        checked: Checked,
        net: Net,
        limits: Limits,
    ) -> Result<Session<E>, AllocError>
        requires of_model { ∥ IsNet (checked_model checked) net ∥₁ }
        requires opens { limits.edition ≡ Two → Opens (checked_model checked) }
        ensures starts { IfOk result (λ session. Starts (setting_of (checked_model checked) limits)
            (stands_in E.simulation session)) }
        ensures steps { IfOk result (λ session. steps_in session ≡ []) }
    {
        let engine = E::start(alloc, checked, net, limits)?;
        Ok(Session {
            alloc,
            engine,
            steps: Vec::new(alloc),
            lost: false,
        })
    }

    /// What may happen next; `Broken` after want of memory of `pick` or `pass`. Takes no memory.
    pub fn moment(&self) -> Moment
        ensures { IsMomentOf (stands_in E.simulation self.now) result }
    {
        if self.lost {
            Moment::Broken
        } else {
            self.engine.moment()
        }
    }

    /// The clock, in clock units from the start of the run. Takes no memory.
    pub fn clock(&self) -> u128
        ensures { ClockIs (stands_in E.simulation self.now) result }
    {
        self.engine.clock()
    }

    /// How many steps were taken, and not taken back. Takes no memory.
    pub fn steps(&self) -> u64
        ensures { result ≡ length (steps_in self.now) }
    {
        self.steps.len() as u64
    }

    /// The model that is simulated. Takes no memory.
    pub fn checked(&self) -> &Checked
        ensures { checked_model result.now ≡ model_in (stands_in E.simulation self.now) }
    {
        self.engine.checked()
    }

    /// The net of the model. Takes no memory.
    pub fn net(&self) -> &Net
        ensures { ∥ IsNet (model_in (stands_in E.simulation self.now)) result.now ∥₁ }
    {
        self.engine.net()
    }

    /// What evaluations and terms may take, and the edition of the rules. Takes no memory.
    pub fn limits(&self) -> Limits
        ensures { result ≡ limits_in (stands_in E.simulation self.now) }
    {
        self.engine.limits()
    }

    /// The offer of this number, from 0.
    ///
    /// # Errors
    ///
    /// But for `NoMemory`, `NoSuchOffer` comes exactly where there are offers, but none of this number,
    /// and `NotNow` exactly where the moment is not `Actions`. Want of memory breaks nothing here.
    pub fn action(&self, k: u64) -> Result<Action, ChooseError>
        ensures offer { IfOk result (IsOffer (stands_in E.simulation self.now) k) }
        ensures there { IfOk result (λ action. (n : ℕ)
            × IsMomentOf (stands_in E.simulation self.now) (Moment.Actions n) × (k < n)) }
        ensures no_such_offer { IfErr result (OnNoSuchOffer
            (λ offers. IsMomentOf (stands_in E.simulation self.now) (Moment.Actions offers)
            × (offers ≤ k))) }
        ensures not_now { IfErr result (OnChooseNotNow
            (λ moment. IsMomentOf (stands_in E.simulation self.now) moment × NoActions moment)) }
    {
        match self.moment() {
            Moment::Actions(offers) => {
                if offers <= k {
                    return Err(ChooseError::NoSuchOffer { offers });
                }
                match self.engine.offer(k) {
                    Ok(action) => Ok(action),
                    Err(_) => Err(ChooseError::NoMemory),
                }
            }
            moment => Err(ChooseError::NotNow(moment)),
        }
    }

    /// The value of a variable of a process at the moment, as a parcel with all objects to which it
    /// leads; nil where the process has no such variable. The only error is want of memory, and it breaks
    /// nothing.
    ///
    /// Memory was never wanting for a step, and the process is one of the net.
    pub fn shown(&self, process: u32, variable: u32) -> Result<Parcel, AllocError>
        requires { CanShow (stands_in E.simulation self.now) process }
        ensures { IfOk result (IsShown (stands_in E.simulation self.now) process variable) }
    {
        self.engine.shown(process, variable)
    }

    /// Chooses the offer of this number, from 0, which is one step: the action takes place, or the moment
    /// becomes `Stopped` where it ends in a trouble.
    ///
    /// # Errors
    ///
    /// But for `NoMemory`, `NoSuchOffer` comes exactly where there are offers, but none of this number,
    /// and `NotNow` exactly where the moment is not `Actions`; then nothing has changed. After `NoMemory`
    /// the moment is `Broken`.
    pub fn pick(&mut self, k: u64) -> Result<(), ChooseError>
        ensures ok { OnOk result (Chooses k (stands_in E.simulation self.old)
            (stands_in E.simulation self.new)) }
        ensures steps { OnOk result (steps_in self.new ≡ steps_in self.old ++ step.Pick k ∷ []) }
        ensures no_such_offer { IfErr result (OnNoSuchOffer
            (λ offers. IsMomentOf (stands_in E.simulation self.old) (Moment.Actions offers)
            × (offers ≤ k))) }
        ensures not_now { IfErr result (OnChooseNotNow
            (λ moment. IsMomentOf (stands_in E.simulation self.old) moment × NoActions moment)) }
        ensures refused { IfErr result (OnChooseRefused (self.new ≡ self.old)) }
        ensures broken { IfErr result (OnChooseNoMemory
            (IsBroken (stands_in E.simulation self.new))) }
        ensures steps_stay { OnErr result (steps_in self.new ≡ steps_in self.old) }
        ensures setting { setting_in (stands_in E.simulation self.new) ≡ setting_in
            (stands_in E.simulation self.old) }
    {
        match self.moment() {
            Moment::Actions(offers) if k < offers => match self.take(Step::Pick(k)) {
                Ok(()) => Ok(()),
                Err(_) => Err(ChooseError::NoMemory),
            },
            Moment::Actions(offers) => Err(ChooseError::NoSuchOffer { offers }),
            moment => Err(ChooseError::NotNow(moment)),
        }
    }

    /// Lets time pass, by the least that is left of an active delay, which is less than 2^64 clock units.
    /// That is one step. The clock is at most 2^64 units for each step that was taken: so no clock passes the
    /// end of its type, since a list has fewer than 2^63 items.
    ///
    /// # Errors
    ///
    /// But for `NoMemory`, `NotNow` comes exactly where the moment is not `Time`; then nothing has
    /// changed. After `NoMemory` the moment is `Broken`.
    pub fn pass(&mut self) -> Result<(), PassError>
        requires low { clock_in (stands_in E.simulation self.old) ≤
            2 ^ 64 * length (steps_in self.old) }
        ensures ok { OnOk result (Passes (stands_in E.simulation self.old)
            (stands_in E.simulation self.new)) }
        ensures short { OnOk result (clock_in (stands_in E.simulation self.new) <
            clock_in (stands_in E.simulation self.old) + 2 ^ 64) }
        ensures steps { OnOk result (steps_in self.new ≡ steps_in self.old ++ step.Pass ∷ []) }
        ensures not_now { IfErr result (OnPassNotNow
            (λ moment. IsMomentOf (stands_in E.simulation self.old) moment × NoTime moment)) }
        ensures refused { IfErr result (OnPassRefused (self.new ≡ self.old)) }
        ensures broken { IfErr result (OnPassNoMemory
            (IsBroken (stands_in E.simulation self.new))) }
        ensures steps_stay { OnErr result (steps_in self.new ≡ steps_in self.old) }
        ensures setting { setting_in (stands_in E.simulation self.new) ≡ setting_in
            (stands_in E.simulation self.old) }
    {
        match self.moment() {
            Moment::Time(_) => match self.take(Step::Pass) {
                Ok(()) => Ok(()),
                Err(_) => Err(PassError::NoMemory),
            },
            moment => Err(PassError::NotNow(moment)),
        }
    }

    // Takes a step that can be taken. The only error is want of memory, and then the session is broken.
    fn take(&mut self, step: Step) -> Result<(), AllocError>
        requires { CanTake step (stands_in E.simulation self.old) }
        ensures ok { OnOk result (Takes step (stands_in E.simulation self.old)
            (stands_in E.simulation self.new)) }
        ensures short { OnOk result (IsShort step (stands_in E.simulation self.old)
            (stands_in E.simulation self.new)) }
        ensures steps { OnOk result (steps_in self.new ≡ steps_in self.old ++ step ∷ []) }
        ensures broken { OnErr result (IsBroken (stands_in E.simulation self.new)) }
        ensures steps_stay { OnErr result (steps_in self.new ≡ steps_in self.old) }
        ensures setting { setting_in (stands_in E.simulation self.new) ≡ setting_in
            (stands_in E.simulation self.old) }
    {
        if self.steps.push(step).is_err() {
            self.lost = true;
            return Err(AllocError);
        }
        match take(&mut self.engine, step) {
            Ok(()) => Ok(()),
            Err(error) => {
                let _step = self.steps.pop();
                Err(error)
            }
        }
    }

    /// Takes the last steps back, so many of them: the steps before them are taken again from the start on,
    /// by another simulator that takes the place of the first one. Takes the time of these steps, and for
    /// that time the memory of both.
    ///
    /// The session is where its steps lead, and its clock is at most 2^64 units for each of them, as it is
    /// unless memory was wanting for a step; and the model is one with which it may begin.
    ///
    /// # Errors
    ///
    /// But for `NoMemory`, `TooFar` comes exactly where fewer steps were taken. Nothing has changed then,
    /// nor after `NoMemory`.
    pub fn back(&mut self, n: u64) -> Result<(), BackError>
        requires place { StandsLow (setting_in (stands_in E.simulation self.old))
            (steps_in self.old) (stands_in E.simulation self.old) }
        requires opens { (limits_in (stands_in E.simulation self.old)).edition ≡ Two →
            Opens (model_in (stands_in E.simulation self.old)) }
        ensures place { OnOk result (StandsLow (setting_in (stands_in E.simulation self.old))
            (steps_in self.new) (stands_in E.simulation self.new)) }
        ensures steps { OnOk result (steps_in self.new ≡
            take (length (steps_in self.old) - n) (steps_in self.old)) }
        ensures within { OnOk result (n ≤ length (steps_in self.old)) }
        ensures too_far { IfErr result (OnTooFar (λ steps. (steps ≡ length (steps_in self.old))
            × (steps < n))) }
        ensures unchanged { OnErr result (self.new ≡ self.old) }
        ensures setting { setting_in (stands_in E.simulation self.new) ≡ setting_in
            (stands_in E.simulation self.old) }
    {
        let steps = self.steps();
        if steps < n {
            return Err(BackError::TooFar { steps });
        }
        if n == 0 {
            return Ok(());
        }
        let left = (steps - n) as usize;
        let (kept, _gone) = self.steps.as_slice().split_at(left);
        self.engine = play_again(self.alloc, &self.engine, kept)?;
        self.steps.truncate(left);
        Ok(())
    }
}
