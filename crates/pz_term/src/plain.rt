ghost use Rattle.std.specs.Prelude.{◌≡◌, ◌≤◌, ◌<◌, Err, IfOk, OnOk, IfErr, OnErr};
ghost use Rattle.pz_bind.specs.pz_classes.CheckedView.{checked_model};
ghost use Rattle.pz_bind.specs.devices.Nets.{IsNet};
ghost use Rattle.pz_term_processes.specs.Standing.{setting_of, config_of, AreProcesses};
ghost use Rattle.pz_rules.specs.declared.limits.Edition.TheVariants.{Two};
ghost use Rattle.pz_rules.specs.CallLaws.{NoRounds};
ghost use Rattle.pz_rules.specs.Runs.{whole};
ghost use Rattle.pz_rules.specs.Starting.{IsStart};
ghost use Rattle.pz_rules.specs.Moments.{IsFirstHigh};
ghost use Rattle.pz_rules.specs.devices.Start.{start_of};
ghost use Rattle.pz_rules.specs.Short.{DelaysAreShort};
ghost use Rattle.pz_term.specs.devices.Holding.{Holds};

use crate::copying::copy_actions;
use crate::standing::Standing;
use crate::vector::{elapse_at, look_at, step_at};
use pz_bind::Net;
use pz_bind::pz_classes::Checked;
use pz_rules::pz_copy::Parcel;
use pz_rules::pz_offer::Trouble;
use pz_rules::{Action, Limits, Moment};
use pz_term_processes::{Process, Started, start};
use pz_term_simulator::{ChooseError, PassError, shown_at_start, shown_in};
use std::alloc::{AllocError, Global};
use std::mem::{self, drop};

/// A simulator that follows the rules from the terms and states alone: it stands for a configuration of
/// a model, says what may happen next there, and goes on to the next one.
pub struct Plain {
    alloc: Global,
    checked: Checked,
    net: Net,
    limits: Limits,
    clock: u128,
    processes: Vec<Process>,
    standing: Standing,
    ghost of_model: { ∥ IsNet (checked_model checked) net ∥₁ },
    ghost rounds: { limits.edition ≡ Two → NoRounds (checked_model checked) },
    ghost holds: { ∥ Holds (setting_of (checked_model checked) limits) clock processes.items standing ∥₁ },
}

// Written out, so that it is proved once, here, and not in each crate that drops one.
impl Drop for Plain {
    fn drop(self) {
        let Plain {
            alloc: _,
            checked,
            net,
            limits: _,
            clock: _,
            processes,
            standing,
        } = self;
        drop(checked);
        drop(net);
        drop(processes);
        drop(standing);
    }
}

impl Plain {
    ghost use Rattle.std.specs.Prelude.{◌+◌, ◌^◌, ℕ};
    ghost use Rattle.pz_classes_openings.specs.OpeningRules.{Opens};
    ghost use Rattle.pz_term_simulator.specs.Simulations.{Starts, IsMomentOf, AreOffersOf, Chooses, Passes, IsBroken, ClockIs, setting_in, model_in, limits_in, clock_in, stands};
    ghost use Rattle.pz_term_simulator.specs.Refusals.{OnNoSuchOffer, OnChooseNotNow, OnChooseRefused, OnChooseNoMemory, NoActions, OnPassNotNow, OnPassRefused, OnPassNoMemory, NoTime};
    ghost use Rattle.pz_term_simulator.specs.Shown.{IsShown, CanShow};
    ghost use Rattle.pz_term.specs.Plains.{simulation_of, model_of};

    /// The simulator of a model before its first step, whose net this is. The only error is want of
    /// memory.
    ///
    /// In edition Two no method of the model begins with itself, and none opens as too much (C23, C24).
    pub fn start(
        alloc: Global,
        checked: Checked,
        net: Net,
        limits: Limits,
    ) -> Result<Plain, AllocError>
        requires of_model { ∥ IsNet (checked_model checked) net ∥₁ }
        requires opens { limits.edition ≡ Two → Opens (checked_model checked) }
        ensures starts { IfOk result (λ plain. Starts (setting_of (checked_model checked) limits)
            (simulation_of plain)) }
        ensures checked { IfOk result (λ plain. plain.checked ≡ checked) }
        ensures net { IfOk result (λ plain. plain.net ≡ net) }
    {
        match start(alloc, &checked, &net, limits)? {
            Started::Ready(processes) => Plain::ready(alloc, checked, net, limits, processes),
            Started::TooHigh(trouble) => {
                Ok(Plain::too_high(alloc, checked, net, limits, trouble))
            }
        }
    }

    // The simulator with these processes, which have just begun.
    fn ready(
        alloc: Global,
        checked: Checked,
        net: Net,
        limits: Limits,
        processes: Vec<Process>,
    ) -> Result<Plain, AllocError>
        requires of_model { ∥ IsNet (checked_model checked) net ∥₁ }
        requires rounds { limits.edition ≡ Two → NoRounds (checked_model checked) }
        requires start { IsStart (setting_of (checked_model checked) limits)
            (config_of 0 processes.items) }
        requires are { ∥ AreProcesses (setting_of (checked_model checked) limits) 0
            processes.items ∥₁ }
        ensures starts { IfOk result (λ plain. Starts (setting_of (checked_model checked) limits)
            (simulation_of plain)) }
        ensures checked { IfOk result (λ plain. plain.checked ≡ checked) }
        ensures net { IfOk result (λ plain. plain.net ≡ net) }
    {
        pz_rules::laws::starts_are_short();
        let mut processes = processes;
        let outlook = look_at(alloc, &checked, &net, limits, 0, &mut processes)?;
        Ok(Plain {
            alloc,
            checked,
            net,
            limits,
            clock: 0,
            processes,
            standing: Standing::Whole(outlook),
        })
    }

    // The simulator at a start that is too high.
    fn too_high(
        alloc: Global,
        checked: Checked,
        net: Net,
        limits: Limits,
        trouble: Trouble,
    ) -> Plain
        requires of_model { ∥ IsNet (checked_model checked) net ∥₁ }
        requires rounds { limits.edition ≡ Two → NoRounds (checked_model checked) }
        requires high { IsFirstHigh (setting_of (checked_model checked) limits)
            (start_of (setting_of (checked_model checked) limits)) trouble }
        ensures starts { Starts (setting_of (checked_model checked) limits)
            (simulation_of result) }
        ensures checked { result.checked ≡ checked }
        ensures net { result.net ≡ net }
    {
        pz_rules::laws::start_is_one();
        let _model = checked.model();
        Plain {
            alloc,
            checked,
            net,
            limits,
            clock: 0,
            processes: Vec::new(alloc),
            standing: Standing::High(trouble),
        }
    }

    /// What may happen next. Takes no memory.
    pub fn moment(&self) -> Moment
        ensures { IsMomentOf (simulation_of self.now) result }
    {
        pz_rules::laws::one_moment();
        pz_rules::laws::wires_are_known();
        let _model = self.checked.model();
        match &self.standing {
            Standing::Whole(outlook) => outlook.moment,
            Standing::High(trouble) => Moment::Stopped(*trouble),
            Standing::Stopped(trouble) => Moment::Stopped(*trouble),
            Standing::Broken => Moment::Broken,
        }
    }

    /// The clock, in clock units from the start of the run. Takes no memory.
    pub fn clock(&self) -> u128
        ensures { ClockIs (simulation_of self.now) result }
    {
        self.clock
    }

    /// The model that is simulated. Takes no memory.
    pub fn checked(&self) -> &Checked
        ensures is { result.now ≡ self.now.checked }
        ensures model { checked_model result.now ≡ model_in (simulation_of self.now) }
    {
        &self.checked
    }

    /// The net of the model. Takes no memory.
    pub fn net(&self) -> &Net
        ensures is { result.now ≡ self.now.net }
        ensures net { ∥ IsNet (model_in (simulation_of self.now)) result.now ∥₁ }
    {
        &self.net
    }

    /// What its evaluations and terms may take, and the edition of the rules by which it goes on. Takes no
    /// memory.
    pub fn limits(&self) -> Limits
        ensures is { result ≡ self.now.limits }
        ensures limits { result ≡ limits_in (simulation_of self.now) }
    {
        self.limits
    }

    /// The offers in their order: none unless the moment is `Actions`. Takes no memory.
    pub fn offers(&self) -> &[Action]
        ensures { AreOffersOf (simulation_of self.now) result.now }
    {
        pz_rules::laws::one_moment();
        pz_rules::laws::one_list_of_offers();
        pz_rules::laws::wires_are_known();
        let _model = self.checked.model();
        match &self.standing {
            Standing::Whole(outlook) => outlook.actions.as_slice(),
            Standing::High(_) => &[],
            Standing::Stopped(_) | Standing::Broken => &[],
        }
    }

    /// Copies of the offers in their order: none unless the moment is `Actions`. The only error is want
    /// of memory, and it breaks nothing.
    pub fn actions(&mut self) -> Result<Vec<Action>, AllocError>
        ensures offers { IfOk result (λ actions. AreOffersOf
            (simulation_of self.old) actions.items) }
        ensures unchanged { self.new ≡ self.old }
    {
        copy_actions(self.alloc, self.offers())
    }

    /// The value of a variable of a process at the moment, as a parcel with all objects to which it
    /// leads; nil where the process has no such variable. The only error is want of memory, and it breaks
    /// nothing.
    ///
    /// Memory was never wanting, and the process is one of the net.
    pub fn shown(&self, process: u32, variable: u32) -> Result<Parcel, AllocError>
        requires { CanShow (simulation_of self.now) process }
        ensures { IfOk result (IsShown (simulation_of self.now) process variable) }
    {
        match &self.standing {
            Standing::Whole(_) | Standing::Stopped(_) => {
                let process = &self.processes[process as usize];
                shown_in(self.alloc, &process.state, variable)
            }
            Standing::High(_) => shown_at_start(self.alloc, &self.net, process, variable),
            Standing::Broken => unreachable!(),
        }
    }

    /// Chooses the offer of this number, from 0: the action takes place, or the moment becomes
    /// `Stopped` where it ends in a trouble. Takes the time of a moment.
    ///
    /// # Errors
    ///
    /// But for `NoMemory`, `NoSuchOffer` comes exactly where there are offers, but none of this
    /// number, and `NotNow` exactly where the moment is not `Actions`; then nothing has changed. After
    /// `NoMemory` the simulator is broken.
    pub fn choose(&mut self, k: u64) -> Result<(), ChooseError>
        ensures ok { OnOk result (Chooses k (simulation_of self.old) (simulation_of self.new)) }
        ensures no_such_offer { IfErr result (OnNoSuchOffer
            (λ offers. IsMomentOf (simulation_of self.old) (Moment.Actions offers)
            × (offers ≤ k))) }
        ensures not_now { IfErr result (OnChooseNotNow
            (λ moment. IsMomentOf (simulation_of self.old) moment × NoActions moment)) }
        ensures refused { IfErr result (OnChooseRefused (self.new ≡ self.old)) }
        ensures broken { IfErr result (OnChooseNoMemory (IsBroken (simulation_of self.new))) }
        ensures setting { setting_in (simulation_of self.new) ≡ setting_in
            (simulation_of self.old) }
    {
        match self.moment() {
            Moment::Actions(offers) => {
                if k < offers {
                    self.take(k)
                } else {
                    Err(ChooseError::NoSuchOffer { offers })
                }
            }
            moment => Err(ChooseError::NotNow(moment)),
        }
    }

    // Takes an offer that is there.
    fn take(&mut self, k: u64) -> Result<(), ChooseError>
        requires there { (n : ℕ) × IsMomentOf (simulation_of self.old) (Moment.Actions n)
            × (k < n) }
        ensures ok { OnOk result (Chooses k (simulation_of self.old) (simulation_of self.new)) }
        ensures memory { OnErr result (result ≡ Err ChooseError.NoMemory) }
        ensures broken { OnErr result (IsBroken (simulation_of self.new)) }
        ensures setting { setting_in (simulation_of self.new) ≡ setting_in
            (simulation_of self.old) }
    {
        pz_rules::laws::one_moment();
        pz_rules::laws::one_list_of_offers();
        pz_rules::laws::wires_are_known();
        pz_rules::laws::short_stays();
        let _model = self.checked.model();
        let Standing::Whole(outlook) = mem::replace(&mut self.standing, Standing::Broken) else {
            unreachable!()
        };
        let action = &outlook.actions[k as usize];
        let Ok(left) = step_at(
            self.alloc,
            &self.checked,
            &self.net,
            self.limits,
            self.clock,
            &mut self.processes,
            action,
        ) else {
            return Err(ChooseError::NoMemory);
        };
        drop(outlook);
        match left {
            Ok(()) => match self.look_on() {
                Ok(()) => Ok(()),
                Err(_) => Err(ChooseError::NoMemory),
            },
            Err(trouble) => {
                self.standing = Standing::Stopped(trouble);
                Ok(())
            }
        }
    }

    // Looks where it stands now. The only error is want of memory, and then it stays broken.
    fn look_on(&mut self) -> Result<(), AllocError>
        requires broken { self.old.standing ≡ Standing.Broken }
        requires are { ∥ AreProcesses (setting_of (model_of self.old) self.old.limits)
            self.old.clock self.old.processes.items ∥₁ }
        requires short { ∥ DelaysAreShort
            (config_of self.old.clock self.old.processes.items) ∥₁ }
        ensures ok { OnOk result (simulation_of self.new ≡ stands
            (setting_of (model_of self.old) self.old.limits)
            (config_of self.old.clock self.old.processes.items) whole) }
        ensures err { OnErr result (self.new.standing ≡ Standing.Broken) }
        ensures setting { setting_in (simulation_of self.new) ≡ setting_in
            (simulation_of self.old) }
    {
        let outlook = look_at(
            self.alloc,
            &self.checked,
            &self.net,
            self.limits,
            self.clock,
            &mut self.processes,
        )?;
        self.standing = Standing::Whole(outlook);
        Ok(())
    }

    /// Lets time pass, by the least that is left of an active delay, which is less than 2^64 clock units.
    /// Takes the time of a moment. The clock is below 2^127.
    ///
    /// # Errors
    ///
    /// But for `NoMemory`, `NotNow` comes exactly where the moment is not `Time`; then nothing has
    /// changed. After `NoMemory` the simulator is broken.
    pub fn pass(&mut self) -> Result<(), PassError>
        requires low { clock_in (simulation_of self.old) < 2 ^ 127 }
        ensures ok { OnOk result (Passes (simulation_of self.old) (simulation_of self.new)) }
        ensures short { OnOk result (clock_in (simulation_of self.new) <
            clock_in (simulation_of self.old) + 2 ^ 64) }
        ensures not_now { IfErr result (OnPassNotNow
            (λ moment. IsMomentOf (simulation_of self.old) moment × NoTime moment)) }
        ensures refused { IfErr result (OnPassRefused (self.new ≡ self.old)) }
        ensures broken { IfErr result (OnPassNoMemory (IsBroken (simulation_of self.new))) }
        ensures setting { setting_in (simulation_of self.new) ≡ setting_in
            (simulation_of self.old) }
    {
        match self.moment() {
            Moment::Time(time) => match self.wait(time) {
                Ok(()) => Ok(()),
                Err(_) => Err(PassError::NoMemory),
            },
            moment => Err(PassError::NotNow(moment)),
        }
    }

    // Lets so much time pass, which can.
    fn wait(&mut self, time: u128) -> Result<(), AllocError>
        requires there { IsMomentOf (simulation_of self.old) (Moment.Time time) }
        requires low { clock_in (simulation_of self.old) < 2 ^ 127 }
        ensures ok { OnOk result (Passes (simulation_of self.old) (simulation_of self.new)) }
        ensures short { OnOk result (clock_in (simulation_of self.new) <
            clock_in (simulation_of self.old) + 2 ^ 64) }
        ensures broken { OnErr result (IsBroken (simulation_of self.new)) }
        ensures setting { setting_in (simulation_of self.new) ≡ setting_in
            (simulation_of self.old) }
    {
        pz_rules::laws::one_moment();
        pz_rules::laws::short_passes();
        pz_rules::laws::moments_are_short();
        self.standing = Standing::Broken;
        elapse_at(
            self.alloc,
            &self.checked,
            &self.net,
            self.limits,
            self.clock,
            &mut self.processes,
            time,
        )?;
        self.clock += time;
        self.look_on()
    }
}
