ghost use Rattle.std.specs.Prelude.{◌≡◌};
ghost use Rattle.pz_bind.specs.pz_classes.CheckedView.{checked_model};
ghost use Rattle.pz_bind.specs.devices.Nets.{IsNet};
ghost use Rattle.pz_rules.specs.declared.limits.Edition.TheVariants.{Two};
ghost use Rattle.pz_rules.specs.CallLaws.{NoRounds};
ghost use Rattle.pz_tree.specs.pz_term_processes.Standing.{setting_of};
ghost use Rattle.pz_sim.specs.devices.Holding.{Holds};

use crate::standing::Standing;
use pz_bind::Net;
use pz_bind::pz_classes::Checked;
use pz_match::Pairs;
use pz_rules::{Limits, Moment};
use pz_sim_totals::Totals;
use pz_tree::Tree;
use std::alloc::Global;
use std::mem::drop;

/// A simulator that keeps of each process a tree, of all what they can do in short, and the pairs of sends and receives
/// that fit: it stands for a configuration of a model, says what may happen next there, and goes on to the next one.
pub struct Sim {
    pub(crate) alloc: Global,
    pub(crate) checked: Checked,
    pub(crate) net: Net,
    pub(crate) limits: Limits,
    pub(crate) clock: u128,
    pub(crate) trees: Vec<Tree>,
    pub(crate) totals: Totals,
    pub(crate) pairs: Pairs,
    pub(crate) standing: Standing,
    ghost of_model: { ∥ IsNet (checked_model checked) net ∥₁ },
    ghost rounds: { limits.edition ≡ Two → NoRounds (checked_model checked) },
    ghost holds: { ∥ Holds (setting_of (checked_model checked) limits) clock trees.items totals pairs standing ∥₁ },
}

// Written out, so that it is proved once, here, and not in each crate that drops one.
impl Drop for Sim {
    fn drop(self) {
        let Sim {
            alloc: _,
            checked,
            net,
            limits: _,
            clock: _,
            trees,
            totals,
            pairs,
            standing,
        } = self;
        drop(checked);
        drop(net);
        drop(trees);
        drop(totals);
        drop(pairs);
        drop(standing);
    }
}

impl Sim {
    ghost use Rattle.pz_term_simulator.specs.Simulations.{IsMomentOf, ClockIs, model_in, limits_in};
    ghost use Rattle.pz_sim.specs.Sims.{simulation_of};

    /// What may happen next. Takes no memory.
    pub fn moment(&self) -> Moment
        ensures { IsMomentOf (simulation_of self.now) result }
    {
        pz_sim_laws::laws::moments_are_decided();
        pz_sim_laws::laws::pairs_are_those_of_the_rules();
        pz_sim_laws::laws::what_is_merely_so_is_so();
        pz_rules::laws::wires_are_known();
        let _model = self.checked.model();
        match &self.standing {
            Standing::Whole(moment) => *moment,
            Standing::High(trouble) => Moment::Stopped(*trouble),
            Standing::Stopped(trouble) => Moment::Stopped(*trouble),
            Standing::Broken => Moment::Broken,
        }
    }

    /// The clock, in clock units from the start of the run. Takes no memory.
    pub fn clock(&self) -> u128
        ensures { ClockIs (simulation_of self.now) result }
    {
        self.clock
    }

    /// The model that is simulated. Takes no memory.
    pub fn checked(&self) -> &Checked
        ensures is { result.now ≡ self.now.checked }
        ensures model { checked_model result.now ≡ model_in (simulation_of self.now) }
    {
        &self.checked
    }

    /// The net of the model. Takes no memory.
    pub fn net(&self) -> &Net
        ensures is { result.now ≡ self.now.net }
        ensures net { ∥ IsNet (model_in (simulation_of self.now)) result.now ∥₁ }
    {
        &self.net
    }

    /// What its evaluations and terms may take, and the edition of the rules by which it goes on. Takes no
    /// memory.
    pub fn limits(&self) -> Limits
        ensures is { result ≡ self.now.limits }
        ensures limits { result ≡ limits_in (simulation_of self.now) }
    {
        self.limits
    }
}
