// Time passes.

ghost use Rattle.std.specs.Prelude.{◌≡◌, ◌≤◌, ◌<◌, ◌+◌, ◌*◌, ◌^◌, ℕ, Bool, true, [], Some, length, map, slice_get, slice_set, All, IfOk, OnOk, OnErr};
ghost use Rattle.pz_bind.specs.pz_classes.CheckedView.{checked_model};
ghost use Rattle.pz_bind.specs.devices.Nets.{IsNet};
ghost use Rattle.pz_rules.specs.Steps.{PassesTo};
ghost use Rattle.pz_sim_laws.specs.Members.{config_of};
ghost use Rattle.pz_tree.specs.pz_tree_standing.Soon.{HasRoom};
ghost use Rattle.pz_tree.specs.Trees.{IsFresh, woken_in};
ghost use Rattle.pz_sim.specs.Costs.{visited, visited_all, names_at, with_end_in};
ghost use Rattle.pz_sim.specs.Members.{members_of};
ghost use Rattle.pz_sim.specs.devices.Acting.{model_at, setting_at, config_at};
ghost use Rattle.pz_sim.specs.devices.Holding.{AreKept};
ghost use Rattle.pz_sim.specs.devices.Passing.{AreSilenced, MayPass, HasPassed, HavePassed, own_total, AreRetold};
ghost use Rattle.pz_sim.specs.devices.Speaking.{CanBeAsked};
ghost use Rattle.pz_sim.specs.devices.Tables.{IsTable};

use crate::deciding::decide;
use crate::scene::Scene;
use crate::sim::Sim;
use crate::standing::Standing;
use crate::summing::total_in;
use crate::telling::{silence, tell};
use pz_bind::pz_classes::Checked;
use pz_match::Pairs;
use pz_nodes::Steps;
use pz_rules::Moment;
use pz_sim_totals::Totals;
use pz_term_simulator::PassError;
use pz_tree::{Tree, pz_tree_standing};
use std::alloc::AllocError;
use std::sync::ledger::Ledger;

// A process that names the clock offers nothing for a while, and is noted. The only error is want of memory.
fn silence_clocked<L: Ledger>(
    scene: Scene<'_>,
    trees: &mut [Tree],
    pairs: &mut Pairs,
    process: u32,
    named: &mut Vec<u32>,
    steps: &mut Steps<L>,
) -> Result<(), AllocError>
    requires within { process < length trees.old }
    requires silent { ∥ AreSilenced (model_at scene) scene.clock process trees.old pairs.old
        named.old.items ∥₁ }
    ensures silent { OnOk result (∥ AreSilenced (model_at scene.entry)
        scene.entry.clock (process + 1)
        trees.old pairs.new named.new.items ∥₁) }
    ensures trees { trees.new ≡ trees.old }
    ensures ticks { OnOk result (steps.new ≡ steps.old) }
{
    if !trees[process as usize].names_clock() {
        return Ok(());
    }
    silence(
        scene.alloc,
        scene.checked,
        scene.clock,
        trees,
        pairs,
        process,
        steps,
    )?;
    named.push(process)?;
    Ok(())
}

// The processes that name the clock offer nothing for a while: their numbers. The only error is want of memory.
fn silence_all<L: Ledger>(
    scene: Scene<'_>,
    trees: &mut [Tree],
    pairs: &mut Pairs,
    count: u32,
    steps: &mut Steps<L>,
) -> Result<Vec<u32>, AllocError>
    requires count { count ≡ length trees.old }
    requires silent { ∥ AreSilenced (model_at scene) scene.clock 0 trees.old pairs.old [] ∥₁ }
    ensures silent { IfOk result (λ named. ∥ AreSilenced (model_at scene.entry)
        scene.entry.clock count
        trees.old pairs.new named.items ∥₁) }
    ensures trees { trees.new ≡ trees.old }
    ensures ticks { OnOk result (steps.new ≡ steps.old) }
{
    let mut named = Vec::new(scene.alloc);
    for process in 0..count {
        silence_clocked(scene, trees, pairs, process, &mut named, steps)?;
    }
    Ok(named)
}

// Lets time pass over a tree in which something may wake, to this moment of the clock, and puts its total. The only error
// is want of memory, or that there is more to do than can be counted.
fn pass_woken<L: Ledger>(
    checked: &Checked,
    clock: u128,
    tree: &mut Tree,
    totals: &mut Totals,
    number: usize,
    steps: &mut Steps<L>,
) -> Result<(), AllocError>
    requires may { ∥ MayPass (checked_model checked.now) clock tree.old ∥₁ }
    requires room { HasRoom clock }
    requires within { number < length totals.old }
    ensures passed { OnOk result
        (∥ HasPassed (checked_model checked.now) clock tree.old tree.new ∥₁) }
    ensures total { OnOk result (totals.new ≡ slice_set totals.old number
        (own_total (checked_model checked.now) tree.new)) }
    ensures ticks { OnOk result (steps.new ≤ steps.old + 16 * woken_in tree.old tree.new) }
{
    tree.pass_to(checked, clock, steps)?;
    let total = total_in(tree);
    totals.set(number, total)
}

// Lets time pass over a tree, to this moment of the clock. Where nothing wakes in it, its clock goes on and its total is
// that which is there. The only error is want of memory, or that there is more to do than can be counted.
fn pass_tree<L: Ledger>(
    checked: &Checked,
    clock: u128,
    tree: &mut Tree,
    totals: &mut Totals,
    number: usize,
    steps: &mut Steps<L>,
) -> Result<(), AllocError>
    requires may { ∥ MayPass (checked_model checked.now) clock tree.old ∥₁ }
    requires room { HasRoom clock }
    requires own { slice_get totals.old number ≡ Some
        (own_total (checked_model checked.now) tree.old) }
    ensures passed { OnOk result
        (∥ HasPassed (checked_model checked.now) clock tree.old tree.new ∥₁) }
    ensures total { OnOk result (totals.new ≡ slice_set totals.old number
        (own_total (checked_model checked.now) tree.new)) }
    ensures ticks { OnOk result (steps.new ≤ steps.old + 64 * visited tree.old tree.new) }
{
    if tree.pass_by(checked, clock, steps) {
        return Ok(());
    }
    pass_woken(checked, clock, tree, totals, number, steps)
}

// Lets time pass over all trees. The only error is want of memory, or that there is more to do than can be counted.
fn pass_all<L: Ledger>(
    checked: &Checked,
    clock: u128,
    trees: &mut [Tree],
    totals: &mut Totals,
    steps: &mut Steps<L>,
) -> Result<(), AllocError>
    requires may { ∥ All (MayPass (checked_model checked.now) clock) trees.old ∥₁ }
    requires room { HasRoom clock }
    requires totals { totals.old ≡ map (own_total (checked_model checked.now)) trees.old }
    ensures passed { OnOk result (∥ HavePassed (checked_model checked.now) clock
        (length trees.old) trees.old trees.new ∥₁) }
    ensures totals { OnOk result
        (totals.new ≡ map (own_total (checked_model checked.now)) trees.new) }
    ensures ticks { OnOk result (steps.new ≤ steps.old + 64 * visited_all trees.old trees.new) }
{
    for number in 0..trees.len() {
        let tree = &mut trees[number];
        pass_tree(checked, clock, tree, totals, number, steps)?;
    }
    Ok(())
}

// Each process of these numbers offers what its tree says from now on. The only error is want of memory.
fn tell_named<L: Ledger>(
    scene: Scene<'_>,
    trees: &mut [Tree],
    pairs: &mut Pairs,
    named: &[u32],
    steps: &mut Steps<L>,
) -> Result<(), AllocError>
    requires of_model { ∥ IsNet (model_at scene) scene.net.now ∥₁ }
    requires asked { ∥ All (CanBeAsked (model_at scene) scene.clock) trees.old ∥₁ }
    requires retold { ∥ AreRetold (model_at scene) trees.old pairs.old named.now 0 ∥₁ }
    ensures table { OnOk result
        (∥ IsTable (members_of (model_at scene.entry) trees.old) pairs.new ∥₁) }
    ensures trees { trees.new ≡ trees.old }
    ensures ticks { (among : ℕ → Bool) → All (λ i. among i ≡ true) named.now → OnOk result
        (steps.new ≤ steps.old + length (with_end_in among pairs.new.pairs)) }
{
    for number in 0..named.len() {
        let process = named[number];
        tell(
            scene.checked,
            scene.net,
            scene.clock,
            trees,
            pairs,
            process,
            steps,
        )?;
    }
    Ok(())
}

// Lets so much time pass, which can: the moment afterwards. The only error is want of memory, or that there is more to do
// than can be counted.
fn elapse<L: Ledger>(
    scene: Scene<'_>,
    time: u128,
    trees: &mut [Tree],
    totals: &mut Totals,
    pairs: &mut Pairs,
    steps: &mut Steps<L>,
) -> Result<Moment, AllocError>
    requires of_model { ∥ IsNet (model_at scene) scene.net.now ∥₁ }
    requires kept { ∥ AreKept (setting_at scene) scene.clock trees.old totals.old pairs.old
        (Moment.Time time) ∥₁ }
    requires low { scene.clock < 2 ^ 127 }
    ensures passes { IfOk result (λ moment. ∥ PassesTo (setting_at scene.entry)
        (config_at scene.entry trees.old) time (config_of (scene.entry.clock + time)
        (members_of (model_at scene.entry) trees.new)) ∥₁) }
    ensures kept { IfOk result (λ moment. ∥ AreKept (setting_at scene.entry)
        (scene.entry.clock + time) trees.new totals.new pairs.new moment ∥₁) }
    ensures ticks { IfOk result (λ moment. steps.new ≤ steps.old
        + (64 * visited_all trees.old trees.new + length (with_end_in
        (names_at (model_at scene.entry) trees.old) pairs.new.pairs))) }
{
    pz_sim_laws::laws::steps_lead_on();
    pz_sim_laws::laws::unclocked_offers_outlast();
    pz_sim_laws::laws::pairs_are_those_of_the_rules();
    pz_rules::laws::what_fits_goes_on();
    pz_rules::laws::low_terms_stay();
    pz_tree_standing::laws::frames_stand_as_time_passes();
    let _model = scene.checked.model();
    let count = scene.net.processes();
    let named = silence_all(scene, trees, pairs, count, steps)?;
    let after = Scene {
        clock: scene.clock + time,
        ..scene
    };
    pass_all(scene.checked, after.clock, trees, totals, steps)?;
    tell_named(after, trees, pairs, named.as_slice(), steps)?;
    let moment = decide(after.clock, totals, pairs)?;
    Ok(moment)
}

// The same, for the trees of a vector.
fn elapse_in<L: Ledger>(
    scene: Scene<'_>,
    time: u128,
    trees: &mut Vec<Tree>,
    totals: &mut Totals,
    pairs: &mut Pairs,
    steps: &mut Steps<L>,
) -> Result<Moment, AllocError>
    requires of_model { ∥ IsNet (model_at scene) scene.net.now ∥₁ }
    requires kept { ∥ AreKept (setting_at scene) scene.clock trees.old.items totals.old pairs.old
        (Moment.Time time) ∥₁ }
    requires low { scene.clock < 2 ^ 127 }
    ensures passes { IfOk result (λ moment. ∥ PassesTo (setting_at scene.entry)
        (config_at scene.entry trees.old.items) time (config_of (scene.entry.clock + time)
        (members_of (model_at scene.entry) trees.new.items)) ∥₁) }
    ensures kept { IfOk result (λ moment. ∥ AreKept (setting_at scene.entry)
        (scene.entry.clock + time) trees.new.items totals.new pairs.new moment ∥₁) }
    ensures ticks { IfOk result (λ moment. steps.new ≤ steps.old
        + (64 * visited_all trees.old.items trees.new.items + length (with_end_in
        (names_at (model_at scene.entry) trees.old.items) pairs.new.pairs))) }
{
    elapse(scene, time, trees.as_mut_slice(), totals, pairs, steps)
}

impl Sim {
    ghost use Rattle.std.specs.Prelude.{Err, IfErr};
    ghost use Rattle.pz_term_simulator.specs.Simulations.{IsMomentOf, Passes, IsBroken, setting_in, clock_in};
    ghost use Rattle.pz_term_simulator.specs.Refusals.{OnPassNotNow, OnPassRefused, OnPassNoMemory, NoTime};
    ghost use Rattle.pz_sim.specs.Costs.{PassingIsSoon};
    ghost use Rattle.pz_sim.specs.Sims.{simulation_of};

    /// Lets time pass, by the least that is left of an active delay, which is less than 2^64 clock units. The clock is
    /// below 2^127. Takes at most 64 steps for each node in which something wakes and each that is live in what becomes
    /// active, with one at least for each tree, and one for each pair with an end in a process that named the clock.
    ///
    /// # Errors
    ///
    /// But for `NoMemory`, `NotNow` comes exactly where the moment is not `Time`; then nothing has
    /// changed. After `NoMemory` the simulator is broken.
    pub fn pass<L: Ledger>(&mut self, steps: &mut Steps<L>) -> Result<(), PassError>
        requires low { clock_in (simulation_of self.old) < 2 ^ 127 }
        ensures ok { OnOk result (Passes (simulation_of self.old) (simulation_of self.new)) }
        ensures short { OnOk result (clock_in (simulation_of self.new) <
            clock_in (simulation_of self.old) + 2 ^ 64) }
        ensures not_now { IfErr result (OnPassNotNow
            (λ moment. IsMomentOf (simulation_of self.old) moment × NoTime moment)) }
        ensures refused { IfErr result (OnPassRefused (self.new ≡ self.old)) }
        ensures broken { IfErr result (OnPassNoMemory (IsBroken (simulation_of self.new))) }
        ensures setting { setting_in (simulation_of self.new) ≡ setting_in
            (simulation_of self.old) }
        ensures ticks { OnOk result (PassingIsSoon self.old self.new steps.old steps.new) }
    {
        match self.moment() {
            Moment::Time(time) => match self.wait(time, steps) {
                Ok(()) => Ok(()),
                Err(_) => Err(PassError::NoMemory),
            },
            moment => Err(PassError::NotNow(moment)),
        }
    }

    // Lets so much time pass, which can. The only error is want of memory, and then it stays broken.
    fn wait<L: Ledger>(&mut self, time: u128, steps: &mut Steps<L>) -> Result<(), AllocError>
        requires there { IsMomentOf (simulation_of self.old) (Moment.Time time) }
        requires low { clock_in (simulation_of self.old) < 2 ^ 127 }
        ensures ok { OnOk result (Passes (simulation_of self.old) (simulation_of self.new)) }
        ensures short { OnOk result (clock_in (simulation_of self.new) <
            clock_in (simulation_of self.old) + 2 ^ 64) }
        ensures broken { OnErr result (IsBroken (simulation_of self.new)) }
        ensures setting { setting_in (simulation_of self.new) ≡ setting_in
            (simulation_of self.old) }
        ensures ticks { OnOk result (PassingIsSoon self.old self.new steps.old steps.new) }
    {
        pz_sim_laws::laws::moments_are_decided();
        pz_sim_laws::laws::pairs_are_those_of_the_rules();
        pz_sim_laws::laws::what_is_merely_so_is_so();
        pz_rules::laws::wires_are_known();
        pz_rules::laws::one_moment();
        let _model = self.checked.model();
        self.standing = Standing::Broken;
        let scene = Scene {
            alloc: self.alloc,
            checked: &self.checked,
            net: &self.net,
            limits: self.limits,
            clock: self.clock,
        };
        let moment = elapse_in(
            scene,
            time,
            &mut self.trees,
            &mut self.totals,
            &mut self.pairs,
            steps,
        )?;
        self.clock += time;
        self.standing = Standing::Whole(moment);
        Ok(())
    }
}
