// A simulator before its first step.

ghost use Rattle.std.specs.Prelude.{◌≡◌, ◌<◌, length, map, All, IfOk, OnOk};
ghost use Rattle.pz_bind.specs.pz_classes.CheckedView.{checked_model};
ghost use Rattle.pz_classes_openings.specs.OpeningRules.{Opens};
ghost use Rattle.pz_bind.specs.devices.Nets.{IsNet};
ghost use Rattle.pz_rules.specs.declared.limits.Edition.TheVariants.{Two};
ghost use Rattle.pz_rules.specs.CallLaws.{NoRounds};
ghost use Rattle.pz_rules.specs.Starting.{IsStart};
ghost use Rattle.pz_rules.specs.Moments.{IsFirstHigh};
ghost use Rattle.pz_rules.specs.devices.Start.{start_of};
ghost use Rattle.pz_tree.specs.pz_term_processes.Standing.{setting_of, process_view, config_of, AreProcesses};
ghost use Rattle.pz_term_simulator.specs.Simulations.{Starts};
ghost use Rattle.pz_tree.specs.Trees.{process_in};
ghost use Rattle.pz_sim.specs.Members.{member_of, members_of};
ghost use Rattle.pz_sim.specs.Sims.{simulation_of};
ghost use Rattle.pz_sim.specs.devices.Holding.{AreTrees, AreKept};
ghost use Rattle.pz_sim.specs.devices.Speaking.{CanBeAsked};
ghost use Rattle.pz_sim.specs.devices.Tables.{IsTable, hushed};

use crate::deciding::decide;
use crate::sim::Sim;
use crate::standing::Standing;
use crate::summing::totals_in;
use crate::telling::tell;
use pz_bind::Net;
use pz_bind::pz_classes::Checked;
use pz_match::Pairs;
use pz_nodes::Steps;
use pz_rules::pz_offer::Trouble;
use pz_rules::{Limits, Moment};
use pz_sim_totals::Totals;
use pz_tree::pz_term_processes::{Process, Started, start};
use pz_tree::{Tree, pz_tree_standing};
use std::alloc::{AllocError, Global};
use std::marker::Brand;
use std::sync::ledger::{Blank, Ledger};

/// The trees of processes that have just begun. The only error is want of memory, or that there is more to do
/// than can be counted.
fn trees_of(
    alloc: Global,
    checked: &Checked,
    net: &Net,
    limits: Limits,
    processes: Vec<Process>,
) -> Result<Vec<Tree>, AllocError>
    requires of_model { ∥ IsNet (checked_model checked.now) net.now ∥₁ }
    requires start { IsStart (setting_of (checked_model checked.now) limits)
        (config_of 0 processes.items) }
    requires are { ∥ AreProcesses (setting_of (checked_model checked.now) limits) 0
        processes.items ∥₁ }
    ensures stand { IfOk result (λ trees. map process_in trees.items ≡
        map process_view processes.items) }
    ensures trees { IfOk result (λ trees. ∥ AreTrees
        (setting_of (checked_model checked.now) limits) 0 trees.items ∥₁) }
{
    pz_tree_standing::laws::frames_stand_at_start();
    let mut trees = Vec::new(alloc);
    for process in processes {
        let number = trees.len() as u32;
        trees.push(Tree::start(alloc, checked, net, limits, number, process)?)?;
    }
    Ok(trees)
}

/// Each process offers what its tree says, where none was asked yet. The only error is want of memory.
fn tell_all<L: Ledger>(
    checked: &Checked,
    net: &Net,
    clock: u128,
    trees: &mut [Tree],
    pairs: &mut Pairs,
    count: u32,
    steps: &mut Steps<L>,
) -> Result<(), AllocError>
    requires of_model { ∥ IsNet (checked_model checked.now) net.now ∥₁ }
    requires count { count ≡ length trees.old }
    requires asked { ∥ All (CanBeAsked (checked_model checked.now) clock) trees.old ∥₁ }
    requires silent { IsTable (map (λ tree. hushed (member_of (checked_model checked.now) tree))
        trees.old) pairs.old }
    ensures table { OnOk result (∥ IsTable (members_of (checked_model checked.now) trees.old)
        pairs.new ∥₁) }
    ensures trees { trees.new ≡ trees.old }
{
    for process in 0..count {
        tell(checked, net, clock, trees, pairs, process, steps)?;
    }
    Ok(())
}

/// The pairs of what all processes offer. The only error is want of memory.
fn pairs_of<L: Ledger>(
    alloc: Global,
    checked: &Checked,
    net: &Net,
    clock: u128,
    trees: &mut Vec<Tree>,
    count: u32,
    ledger: Blank,
) -> Result<Pairs, AllocError>
    requires name { ledger.name ≡ L.name }
    requires parts { ledger.parts ≡ L.parts }
    requires some { 0 < L.parts }
    requires of_model { ∥ IsNet (checked_model checked.now) net.now ∥₁ }
    requires count { count ≡ length trees.old.items }
    requires asked { ∥ All (CanBeAsked (checked_model checked.now) clock) trees.old.items ∥₁ }
    ensures table { IfOk result (λ pairs. ∥ IsTable
        (members_of (checked_model checked.now) trees.old.items) pairs ∥₁) }
    ensures trees { trees.new.items ≡ trees.old.items }
{
    let mut steps = Steps::<L>::new(ledger);
    let mut pairs = Pairs::new(alloc, count)?;
    let slice = trees.as_mut_slice();
    tell_all(checked, net, clock, slice, &mut pairs, count, &mut steps)?;
    Ok(pairs)
}

/// What a simulator keeps as long as it goes on.
struct Kept {
    trees: Vec<Tree>,
    totals: Totals,
    pairs: Pairs,
    moment: Moment,
}

/// What is kept of processes that have just begun. The only error is want of memory, or that there is more to do
/// than can be counted.
fn kept_of(
    alloc: Global,
    checked: &Checked,
    net: &Net,
    limits: Limits,
    processes: Vec<Process>,
) -> Result<Kept, AllocError>
    requires of_model { ∥ IsNet (checked_model checked.now) net.now ∥₁ }
    requires start { IsStart (setting_of (checked_model checked.now) limits)
        (config_of 0 processes.items) }
    requires are { ∥ AreProcesses (setting_of (checked_model checked.now) limits) 0
        processes.items ∥₁ }
    ensures stand { IfOk result (λ kept. map process_in kept.trees.items ≡
        map process_view processes.items) }
    ensures kept { IfOk result (λ kept. ∥ AreKept
        (setting_of (checked_model checked.now) limits) 0 kept.trees.items kept.totals
        kept.pairs kept.moment ∥₁) }
{
    let mut trees = trees_of(alloc, checked, net, limits, processes)?;
    let count = net.processes();
    let totals = totals_in(alloc, count, trees.as_slice())?;
    let pairs = pairs_of::<Brand>(alloc, checked, net, 0, &mut trees, count, Blank::new(1))?;
    let moment = decide(0, &totals, &pairs)?;
    Ok(Kept {
        trees,
        totals,
        pairs,
        moment,
    })
}

impl Sim {
    /// The simulator of a model before its first step, whose net this is. The only error is want of
    /// memory, or that there is more to do than can be counted.
    ///
    /// In edition Two no method of the model begins with itself, and none opens as too much (C23, C24).
    pub fn start(
        alloc: Global,
        checked: Checked,
        net: Net,
        limits: Limits,
    ) -> Result<Sim, AllocError>
        requires of_model { ∥ IsNet (checked_model checked) net ∥₁ }
        requires opens { limits.edition ≡ Two → Opens (checked_model checked) }
        ensures starts { IfOk result (λ sim. Starts (setting_of (checked_model checked) limits)
            (simulation_of sim)) }
        ensures checked { IfOk result (λ sim. sim.checked ≡ checked) }
        ensures net { IfOk result (λ sim. sim.net ≡ net) }
    {
        match start(alloc, &checked, &net, limits)? {
            Started::Ready(processes) => Sim::ready(alloc, checked, net, limits, processes),
            Started::TooHigh(trouble) => Sim::too_high(alloc, checked, net, limits, trouble),
        }
    }

    // The simulator with these processes, which have just begun.
    fn ready(
        alloc: Global,
        checked: Checked,
        net: Net,
        limits: Limits,
        processes: Vec<Process>,
    ) -> Result<Sim, AllocError>
        requires of_model { ∥ IsNet (checked_model checked) net ∥₁ }
        requires rounds { limits.edition ≡ Two → NoRounds (checked_model checked) }
        requires start { IsStart (setting_of (checked_model checked) limits)
            (config_of 0 processes.items) }
        requires are { ∥ AreProcesses (setting_of (checked_model checked) limits) 0
            processes.items ∥₁ }
        ensures starts { IfOk result (λ sim. Starts (setting_of (checked_model checked) limits)
            (simulation_of sim)) }
        ensures checked { IfOk result (λ sim. sim.checked ≡ checked) }
        ensures net { IfOk result (λ sim. sim.net ≡ net) }
    {
        let Kept {
            trees,
            totals,
            pairs,
            moment,
        } = kept_of(alloc, &checked, &net, limits, processes)?;
        Ok(Sim {
            alloc,
            checked,
            net,
            limits,
            clock: 0,
            trees,
            totals,
            pairs,
            standing: Standing::Whole(moment),
        })
    }

    // The simulator at a start that is too high.
    fn too_high(
        alloc: Global,
        checked: Checked,
        net: Net,
        limits: Limits,
        trouble: Trouble,
    ) -> Result<Sim, AllocError>
        requires of_model { ∥ IsNet (checked_model checked) net ∥₁ }
        requires rounds { limits.edition ≡ Two → NoRounds (checked_model checked) }
        requires high { IsFirstHigh (setting_of (checked_model checked) limits)
            (start_of (setting_of (checked_model checked) limits)) trouble }
        ensures starts { IfOk result (λ sim. Starts (setting_of (checked_model checked) limits)
            (simulation_of sim)) }
        ensures checked { IfOk result (λ sim. sim.checked ≡ checked) }
        ensures net { IfOk result (λ sim. sim.net ≡ net) }
    {
        pz_rules::laws::start_is_one();
        let _model = checked.model();
        let totals = Totals::new(alloc, 0)?;
        let pairs = Pairs::new(alloc, 0)?;
        Ok(Sim {
            alloc,
            checked,
            net,
            limits,
            clock: 0,
            trees: Vec::new(alloc),
            totals,
            pairs,
            standing: Standing::High(trouble),
        })
    }
}
