// An offer is chosen.

ghost use Rattle.std.specs.Prelude.{◌≡◌, ◌≤◌, ◌<◌, ℕ, IfOk, OnOk, OnErr};
ghost use Rattle.pz_bind.specs.devices.Nets.{IsNet};
ghost use Rattle.pz_rules.specs.declared.limits.Edition.TheVariants.{Two};
ghost use Rattle.pz_rules.specs.CallLaws.{NoRounds};
ghost use Rattle.pz_sim_totals.specs.Sums.{all, IsAction};
ghost use Rattle.pz_sim_laws.specs.Deciding.{offers_in};
ghost use Rattle.pz_sim_laws.specs.Leading.{LeadsTo};
ghost use Rattle.pz_sim.specs.Costs.{IfGoesOn, TakesSoon};
ghost use Rattle.pz_sim.specs.Sims.{simulation_at};
ghost use Rattle.pz_sim.specs.devices.Acting.{model_at, setting_at, config_at, AreTold, HasAdvanced, reached};
ghost use Rattle.pz_sim.specs.devices.Holding.{Holds};

use crate::acting::{act_alone, hand_over};
use crate::deciding::decide;
use crate::scene::Scene;
use crate::sim::Sim;
use crate::standing::Standing;
use pz_match::Pairs;
use pz_nodes::Steps;
use pz_rules::Moment;
use pz_rules::pz_offer::{End, Trouble};
use pz_sim_totals::{Found, Totals};
use pz_term_simulator::ChooseError;
use pz_tree::{InternalAction, Tree};
use std::alloc::AllocError;
use std::sync::ledger::Ledger;

// This internal action takes place, unless it ends in a trouble. The only error is want of memory.
fn act_kth<L: Ledger>(
    scene: Scene<'_>,
    trees: &mut [Tree],
    totals: &mut Totals,
    pairs: &mut Pairs,
    found: Found,
    steps: &mut Steps<L>,
) -> Result<Result<(), Trouble>, AllocError>
    requires of_model { ∥ IsNet (model_at scene) scene.net.now ∥₁ }
    requires rounds { scene.limits.edition ≡ Two → NoRounds (model_at scene) }
    requires told { ∥ AreTold (setting_at scene) scene.clock trees.old totals.old pairs.old ∥₁ }
    requires action { (k : ℕ) × IsAction totals.old k found }
    ensures leads { (k : ℕ) → IsAction totals.old k found → IfOk result (λ left.
        ∥ LeadsTo (setting_at scene.entry) (config_at scene.entry trees.old)
        (offers_in (all totals.old) pairs.old.pairs) k
        (reached (model_at scene.entry) scene.entry.clock trees.new left) ∥₁) }
    ensures told { IfOk result (λ left. OnOk left (∥ AreTold (setting_at scene.entry)
        scene.entry.clock trees.new totals.new pairs.new ∥₁)) }
    ensures unchanged { IfOk result (λ left. OnErr left (trees.new ≡ trees.old)) }
    ensures ticks { (k : ℕ) → IsAction totals.old k found → IfOk result (λ left. OnOk left
        (∥ TakesSoon (setting_at scene.entry) scene.entry.clock k trees.old trees.new
        pairs.new.pairs steps.old steps.new ∥₁)) }
{
    pz_sim_laws::laws::offers_are_numbered();
    pz_sim_laws::laws::pairs_are_those_of_the_rules();
    pz_rules::laws::wires_are_known();
    pz_rules::laws::walks_list_what_is_active();
    let _model = scene.checked.model();
    let _processes = scene.net.processes();
    let tree = &trees[found.process];
    let Some(action) = tree.kth_internal(found.number)? else {
        unreachable!()
    };
    let InternalAction { place, .. } = action;
    let at = End {
        process: found.process as u32,
        place,
    };
    act_alone(scene, trees, totals, pairs, &at, steps)
}

// The communication of this number takes place, counted behind all internal actions, unless it ends in a trouble. The
// only error is want of memory.
fn hand_over_kth<L: Ledger>(
    scene: Scene<'_>,
    trees: &mut [Tree],
    totals: &mut Totals,
    pairs: &mut Pairs,
    k: u64,
    steps: &mut Steps<L>,
) -> Result<Result<(), Trouble>, AllocError>
    requires of_model { ∥ IsNet (model_at scene) scene.net.now ∥₁ }
    requires rounds { scene.limits.edition ≡ Two → NoRounds (model_at scene) }
    requires told { ∥ AreTold (setting_at scene) scene.clock trees.old totals.old pairs.old ∥₁ }
    requires past { (all totals.old).summary.internal ≤ k }
    requires below { k < offers_in (all totals.old) pairs.old.pairs }
    ensures leads { IfOk result (λ left. ∥ LeadsTo (setting_at scene.entry)
        (config_at scene.entry trees.old) (offers_in (all totals.old) pairs.old.pairs) k
        (reached (model_at scene.entry) scene.entry.clock trees.new left) ∥₁) }
    ensures told { IfOk result (λ left. OnOk left (∥ AreTold (setting_at scene.entry)
        scene.entry.clock trees.new totals.new pairs.new ∥₁)) }
    ensures unchanged { IfOk result (λ left. OnErr left (trees.new ≡ trees.old)) }
    ensures ticks { IfOk result (λ left. OnOk left (∥ TakesSoon (setting_at scene.entry)
        scene.entry.clock k trees.old trees.new pairs.new.pairs steps.old steps.new ∥₁)) }
{
    pz_sim_laws::laws::offers_are_numbered();
    pz_sim_laws::laws::pairs_are_those_of_the_rules();
    pz_rules::laws::wires_are_known();
    let _model = scene.checked.model();
    let internal = totals.all().summary.internal;
    let Some((sender, receiver)) = pairs.kth(k - internal)? else {
        unreachable!()
    };
    hand_over(scene, trees, totals, pairs, &sender, &receiver, steps)
}

// The offer of this number takes place, which is there, unless it ends in a trouble. The only error is want of memory.
fn take_kth<L: Ledger>(
    scene: Scene<'_>,
    trees: &mut [Tree],
    totals: &mut Totals,
    pairs: &mut Pairs,
    k: u64,
    steps: &mut Steps<L>,
) -> Result<Result<(), Trouble>, AllocError>
    requires of_model { ∥ IsNet (model_at scene) scene.net.now ∥₁ }
    requires rounds { scene.limits.edition ≡ Two → NoRounds (model_at scene) }
    requires told { ∥ AreTold (setting_at scene) scene.clock trees.old totals.old pairs.old ∥₁ }
    requires below { k < offers_in (all totals.old) pairs.old.pairs }
    ensures leads { IfOk result (λ left. ∥ LeadsTo (setting_at scene.entry)
        (config_at scene.entry trees.old) (offers_in (all totals.old) pairs.old.pairs) k
        (reached (model_at scene.entry) scene.entry.clock trees.new left) ∥₁) }
    ensures told { IfOk result (λ left. OnOk left (∥ AreTold (setting_at scene.entry)
        scene.entry.clock trees.new totals.new pairs.new ∥₁)) }
    ensures unchanged { IfOk result (λ left. OnErr left (trees.new ≡ trees.old)) }
    ensures ticks { IfOk result (λ left. OnOk left (∥ TakesSoon (setting_at scene.entry)
        scene.entry.clock k trees.old trees.new pairs.new.pairs steps.old steps.new ∥₁)) }
{
    match totals.find(k) {
        Some(found) => act_kth(scene, trees, totals, pairs, found, steps),
        None => hand_over_kth(scene, trees, totals, pairs, k, steps),
    }
}

// How it is with the simulator once the offer of this number, which is there, was taken. The only error is want of
// memory.
fn go_on<L: Ledger>(
    scene: Scene<'_>,
    trees: &mut [Tree],
    totals: &mut Totals,
    pairs: &mut Pairs,
    k: u64,
    steps: &mut Steps<L>,
) -> Result<Standing, AllocError>
    requires of_model { ∥ IsNet (model_at scene) scene.net.now ∥₁ }
    requires rounds { scene.limits.edition ≡ Two → NoRounds (model_at scene) }
    requires told { ∥ AreTold (setting_at scene) scene.clock trees.old totals.old pairs.old ∥₁ }
    requires below { k < offers_in (all totals.old) pairs.old.pairs }
    ensures leads { IfOk result (HasAdvanced (setting_at scene.entry) scene.entry.clock
        (offers_in (all totals.old) pairs.old.pairs) k trees.old trees.new) }
    ensures holds { IfOk result (λ standing. ∥ Holds (setting_at scene.entry) scene.entry.clock
        trees.new totals.new pairs.new standing ∥₁) }
    ensures ticks { IfOk result (λ standing. IfGoesOn (simulation_at (setting_at scene.entry)
        scene.entry.clock trees.new standing) (∥ TakesSoon (setting_at scene.entry)
        scene.entry.clock k trees.old trees.new pairs.new.pairs steps.old steps.new ∥₁)) }
{
    let left = take_kth(scene, trees, totals, pairs, k, steps)?;
    match left {
        Err(trouble) => Ok(Standing::Stopped(trouble)),
        Ok(()) => {
            let moment = decide(scene.clock, totals, pairs)?;
            Ok(Standing::Whole(moment))
        }
    }
}

// The same, for the trees of a vector.
fn go_on_in<L: Ledger>(
    scene: Scene<'_>,
    trees: &mut Vec<Tree>,
    totals: &mut Totals,
    pairs: &mut Pairs,
    k: u64,
    steps: &mut Steps<L>,
) -> Result<Standing, AllocError>
    requires of_model { ∥ IsNet (model_at scene) scene.net.now ∥₁ }
    requires rounds { scene.limits.edition ≡ Two → NoRounds (model_at scene) }
    requires told { ∥ AreTold (setting_at scene) scene.clock trees.old.items totals.old
        pairs.old ∥₁ }
    requires below { k < offers_in (all totals.old) pairs.old.pairs }
    ensures leads { IfOk result (HasAdvanced (setting_at scene.entry) scene.entry.clock
        (offers_in (all totals.old) pairs.old.pairs) k trees.old.items trees.new.items) }
    ensures holds { IfOk result (λ standing. ∥ Holds (setting_at scene.entry) scene.entry.clock
        trees.new.items totals.new pairs.new standing ∥₁) }
    ensures ticks { IfOk result (λ standing. IfGoesOn (simulation_at (setting_at scene.entry)
        scene.entry.clock trees.new.items standing) (∥ TakesSoon (setting_at scene.entry)
        scene.entry.clock k trees.old.items trees.new.items pairs.new.pairs steps.old
        steps.new ∥₁)) }
{
    go_on(scene, trees.as_mut_slice(), totals, pairs, k, steps)
}

impl Sim {
    ghost use Rattle.std.specs.Prelude.{Err, IfErr};
    ghost use Rattle.pz_term_simulator.specs.Simulations.{IsMomentOf, Chooses, IsBroken, setting_in};
    ghost use Rattle.pz_term_simulator.specs.Refusals.{OnNoSuchOffer, OnChooseNotNow, OnChooseRefused, OnChooseNoMemory, NoActions};
    ghost use Rattle.pz_sim.specs.Costs.{ChoiceIsSoon};
    ghost use Rattle.pz_sim.specs.Sims.{simulation_of};

    /// Chooses the offer of this number, from 0: the action takes place, or the moment becomes
    /// `Stopped` where it ends in a trouble. Otherwise it takes at most 64 steps for each node
    /// that the action concerns, and one for each pair with an end in a process that acted.
    ///
    /// # Errors
    ///
    /// But for `NoMemory`, `NoSuchOffer` comes exactly where there are offers, but none of this
    /// number, and `NotNow` exactly where the moment is not `Actions`; then nothing has changed. After
    /// `NoMemory` the simulator is broken.
    pub fn choose<L: Ledger>(&mut self, k: u64, steps: &mut Steps<L>) -> Result<(), ChooseError>
        ensures ok { OnOk result (Chooses k (simulation_of self.old) (simulation_of self.new)) }
        ensures no_such_offer { IfErr result (OnNoSuchOffer
            (λ offers. IsMomentOf (simulation_of self.old) (Moment.Actions offers)
            × (offers ≤ k))) }
        ensures not_now { IfErr result (OnChooseNotNow
            (λ moment. IsMomentOf (simulation_of self.old) moment × NoActions moment)) }
        ensures refused { IfErr result (OnChooseRefused (self.new ≡ self.old)) }
        ensures broken { IfErr result (OnChooseNoMemory (IsBroken (simulation_of self.new))) }
        ensures setting { setting_in (simulation_of self.new) ≡ setting_in
            (simulation_of self.old) }
        ensures ticks { OnOk result (ChoiceIsSoon k self.old self.new steps.old steps.new) }
    {
        match self.moment() {
            Moment::Actions(offers) => {
                if k < offers {
                    self.take(k, steps)
                } else {
                    Err(ChooseError::NoSuchOffer { offers })
                }
            }
            moment => Err(ChooseError::NotNow(moment)),
        }
    }

    // Takes an offer that is there.
    fn take<L: Ledger>(&mut self, k: u64, steps: &mut Steps<L>) -> Result<(), ChooseError>
        requires there { (n : ℕ) × IsMomentOf (simulation_of self.old) (Moment.Actions n)
            × (k < n) }
        ensures ok { OnOk result (Chooses k (simulation_of self.old) (simulation_of self.new)) }
        ensures memory { OnErr result (result ≡ Err ChooseError.NoMemory) }
        ensures broken { OnErr result (IsBroken (simulation_of self.new)) }
        ensures setting { setting_in (simulation_of self.new) ≡ setting_in
            (simulation_of self.old) }
        ensures ticks { OnOk result (ChoiceIsSoon k self.old self.new steps.old steps.new) }
    {
        pz_sim_laws::laws::moments_are_decided();
        pz_sim_laws::laws::pairs_are_those_of_the_rules();
        pz_sim_laws::laws::what_is_merely_so_is_so();
        pz_rules::laws::wires_are_known();
        pz_rules::laws::one_moment();
        pz_rules::laws::one_list_of_offers();
        let _model = self.checked.model();
        self.standing = Standing::Broken;
        let scene = Scene {
            alloc: self.alloc,
            checked: &self.checked,
            net: &self.net,
            limits: self.limits,
            clock: self.clock,
        };
        match go_on_in(
            scene,
            &mut self.trees,
            &mut self.totals,
            &mut self.pairs,
            k,
            steps,
        ) {
            Ok(standing) => {
                self.standing = standing;
                Ok(())
            }
            Err(_) => Err(ChooseError::NoMemory),
        }
    }
}
