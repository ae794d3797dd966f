// A tree of a process as it begins.

ghost use Rattle.std.specs.Prelude.{◌≡◌, ◌≤◌, ◌<◌, Some, slice_get, IfOk};
ghost use Rattle.pz_bind.specs.pz_classes.CheckedView.{checked_model};
ghost use Rattle.pz_bind_levels.specs.Places.{Address};
ghost use Rattle.pz_rules.specs.pz_bind_rules.Nest.{processes, class_at};
ghost use Rattle.pz_bind.specs.NetView.{HasProcess};
ghost use Rattle.pz_bind.specs.devices.Nets.{IsNet};
ghost use Rattle.pz_rules.specs.Starting.{StartsAs};
ghost use Rattle.pz_rules.specs.Terms.{height};
ghost use Rattle.pz_rules.specs.View.{term_view};
ghost use Rattle.pz_term_processes.specs.Standing.{setting_of, process_view};
ghost use Rattle.pz_tree.specs.Trees.{at_in, process_in, IsFresh, IsThere};

use crate::tree::Tree;
use pz_bind::Net;
use pz_bind::pz_classes::Checked;
use pz_nodes::{Nodes, Steps};
use pz_rules::pz_state::State;
use pz_rules::{Limits, Term};
use pz_term_processes::Process;
use pz_tree_acting::pz_tree_regrowing::pz_tree_nodes::plant;
use std::alloc::{AllocError, Global};
use std::marker::Brand;
use std::mem;
use std::sync::ledger::{Blank, Ledger};

// The tree of a process that has just begun, of which nothing was asked yet.
fn planted<L: Ledger>(
    alloc: Global,
    checked: &Checked,
    net: &Net,
    limits: Limits,
    process: u32,
    begun: Process,
    steps: &mut Steps<L>,
) -> Result<Tree, AllocError>
    requires of_model { ∥ IsNet (checked_model checked.now) net.now ∥₁ }
    requires there { HasProcess net.now process }
    requires begins { (place : Address) →
        slice_get (processes (checked_model checked.now)) process ≡ Some place →
        StartsAs (setting_of (checked_model checked.now) limits) place (process_view begun) }
    requires low { height (term_view begun.term) ≤ limits.height }
    ensures process { IfOk result (λ tree. process_in tree ≡ process_view begun) }
    ensures seen { IfOk result (λ tree. (place : Address) →
        slice_get (processes (checked_model checked.now)) process ≡ Some place →
        at_in (checked_model checked.now) tree ≡ record {
          setting = setting_of (checked_model checked.now) limits;
          process = process;
          class = class_at (checked_model checked.now) place;
          clock = 0;
          state = begun.state.held;
        }) }
    ensures there { IfOk result (λ tree. IsThere (checked_model checked.now) tree) }
    ensures clock { IfOk result (λ tree. tree.clock ≡ 0) }
{
    let _model = checked.model();
    let class = net.class(process);
    let mut begun = begun;
    let term = mem::replace(&mut begun.term, Term::Done);
    let state = mem::replace(&mut begun.state, State::new(alloc, Vec::new(alloc)));
    let mut nodes = Nodes::new(alloc);
    let root = plant(alloc, &mut nodes, term, 0, steps)?;
    Ok(Tree {
        alloc,
        nodes,
        root,
        state,
        clock: 0,
        process,
        class,
        limits,
    })
}

fn start_in<L: Ledger>(
    alloc: Global,
    checked: &Checked,
    net: &Net,
    limits: Limits,
    process: u32,
    begun: Process,
    ledger: Blank,
) -> Result<Tree, AllocError>
    requires name { ledger.name ≡ L.name }
    requires parts { ledger.parts ≡ L.parts }
    requires some { 0 < L.parts }
    requires of_model { ∥ IsNet (checked_model checked.now) net.now ∥₁ }
    requires there { HasProcess net.now process }
    requires begins { (place : Address) →
        slice_get (processes (checked_model checked.now)) process ≡ Some place →
        StartsAs (setting_of (checked_model checked.now) limits) place (process_view begun) }
    requires low { height (term_view begun.term) ≤ limits.height }
    ensures process { IfOk result (λ tree. process_in tree ≡ process_view begun) }
    ensures seen { IfOk result (λ tree. (place : Address) →
        slice_get (processes (checked_model checked.now)) process ≡ Some place →
        at_in (checked_model checked.now) tree ≡ record {
          setting = setting_of (checked_model checked.now) limits;
          process = process;
          class = class_at (checked_model checked.now) place;
          clock = 0;
          state = begun.state.held;
        }) }
    ensures fresh { IfOk result (λ tree. ∥ IsFresh (checked_model checked.now) tree ∥₁) }
{
    let mut steps = Steps::<L>::new(ledger);
    let mut tree = planted(alloc, checked, net, limits, process, begun, &mut steps)?;
    tree.refresh(checked, 0, &mut steps)?;
    Ok(tree)
}

impl Tree {
    /// The tree of a process that has just begun. The process is the one of this number in the net, and its
    /// term is no higher than the limits allow. The only error is want of memory, or that there is more to do
    /// than can be counted.
    pub fn start(
        alloc: Global,
        checked: &Checked,
        net: &Net,
        limits: Limits,
        process: u32,
        begun: Process,
    ) -> Result<Tree, AllocError>
        requires of_model { ∥ IsNet (checked_model checked.now) net.now ∥₁ }
        requires there { HasProcess net.now process }
        requires begins { (place : Address) →
            slice_get (processes (checked_model checked.now)) process ≡ Some place →
            StartsAs (setting_of (checked_model checked.now) limits) place (process_view begun) }
        requires low { height (term_view begun.term) ≤ limits.height }
        ensures process { IfOk result (λ tree. process_in tree ≡ process_view begun) }
        ensures seen { IfOk result (λ tree. (place : Address) →
            slice_get (processes (checked_model checked.now)) process ≡ Some place →
            at_in (checked_model checked.now) tree ≡ record {
              setting = setting_of (checked_model checked.now) limits;
              process = process;
              class = class_at (checked_model checked.now) place;
              clock = 0;
              state = begun.state.held;
            }) }
        ensures fresh { IfOk result (λ tree. ∥ IsFresh (checked_model checked.now) tree ∥₁) }
    {
        start_in::<Brand>(alloc, checked, net, limits, process, begun, Blank::new(1))
    }
}
