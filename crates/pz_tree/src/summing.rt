// What a tree keeps of its whole term.

ghost use Rattle.std.specs.Prelude.{◌≡◌, ◌<◌, option_map, slice_get, IfOk};
ghost use Rattle.pz_rules.specs.pz_syntax.Classes.{ModelTree};
ghost use Rattle.pz_nodes.specs.Arena.{find};
ghost use Rattle.pz_rules.specs.Leaving as leaving;
ghost use Rattle.pz_rules.specs.devices.Walk.{internal_actions};
ghost use Rattle.pz_tree_acting.specs.pz_tree_standing.Summaries.{summary_of};
ghost use Rattle.pz_tree_acting.specs.pz_tree_standing.Woken.{clocked};
ghost use Rattle.pz_tree.specs.Asking.{noted_view};
ghost use Rattle.pz_tree.specs.Trees.{at_in, term_in, IsThere, IsFresh};
ghost use Rattle.pz_tree_acting.specs.pz_tree_nodes.Choosing as choosing;
ghost use Rattle.pz_tree_acting.specs.pz_tree_nodes.Choosing.{ChoiceRule};
ghost use Rattle.pz_tree.specs.devices.Kept.{KeptRule};

use crate::found::InternalAction;
use crate::tree::Tree;
use pz_nodes::{Key, Nodes, Steps};
use pz_rules::pz_offer::Summary;
use pz_tree_acting::pz_tree_regrowing::pz_tree_nodes::{
    ActingPart, Kept, Node, Part, Spot, kth_internal,
};
use std::alloc::{AllocError, Global};
use std::marker::Brand;
use std::sync::ledger::{Blank, Ledger};

// What is kept of the term that stands under a key.
fn kept_under<L: Ledger>(nodes: &Nodes<Node>, key: Option<Key>, ledger: Blank) -> Kept
    requires name { ledger.name ≡ L.name }
    requires parts { ledger.parts ≡ L.parts }
    requires some { 0 < L.parts }
    ensures { KeptRule (find nodes.now) key result }
{
    let mut steps = Steps::<L>::new(ledger);
    let Some(key) = key else {
        return Kept::done();
    };
    let Some(node) = nodes.get(key, &mut steps) else {
        return Kept::done();
    };
    node.what.kept
}

fn kth_in<L: Ledger>(
    alloc: Global,
    nodes: &Nodes<Node>,
    root: Spot,
    levels: u32,
    k: u64,
    ledger: Blank,
) -> Result<Option<ActingPart>, AllocError>
    requires name { ledger.name ≡ L.name }
    requires parts { ledger.parts ≡ L.parts }
    requires some { 0 < L.parts }
    ensures { IfOk result (ChoiceRule (find nodes.now) root.key root.frame.0 root.clock levels k) }
{
    let mut steps = Steps::<L>::new(ledger);
    kth_internal(alloc, nodes, root, levels, k, &mut steps)
}

// What was found, without the nodes where it stands.
fn action_of(found: Option<ActingPart>) -> Option<InternalAction>
    ensures { option_map noted_view result ≡ option_map choosing.noted_view found }
{
    let ActingPart { part, kind, pos } = found?;
    let Part { place, .. } = part;
    Some(InternalAction { place, kind, pos })
}

impl Tree {
    /// What its process can do, in short: how many internal actions, active sends and active receives there
    /// are, when the first active delay is over, and the first trouble of what active parts are asked. Takes
    /// no memory.
    pub fn summary(&self) -> Summary
        requires fresh { ∥ ((m : ModelTree) × IsFresh m self.now) ∥₁ }
        ensures summary { (m : ModelTree) → IsFresh m self.now →
            result ≡ summary_of (at_in m self.now) self.now.clock 0 (term_in self.now) }
    {
        kept_under::<Brand>(&self.nodes, self.root, Blank::new(1)).summary
    }

    /// Whether an active part names `currentTime`: a guard, a delay that has not begun, a send in its
    /// arguments, or a receive in its condition. Takes no memory.
    pub fn names_clock(&self) -> bool
        requires fresh { ∥ ((m : ModelTree) × IsFresh m self.now) ∥₁ }
        ensures names { (m : ModelTree) → IsFresh m self.now →
            result ≡ clocked (at_in m self.now) 0 (term_in self.now) }
    {
        kept_under::<Brand>(&self.nodes, self.root, Blank::new(1)).clocked
    }

    /// Whether nothing is left of its process. Takes no memory.
    pub fn is_done(&self) -> bool
        requires there { ∥ ((m : ModelTree) × IsThere m self.now) ∥₁ }
        ensures done { (m : ModelTree) → IsThere m self.now →
            result ≡ leaving.is_done (term_in self.now) }
    {
        self.root.is_none()
    }

    /// The internal action of this number, from 0, by place. None exactly where there are no more than so
    /// many. The only error is want of memory.
    pub fn kth_internal(&self, k: u64) -> Result<Option<InternalAction>, AllocError>
        requires fresh { ∥ ((m : ModelTree) × IsFresh m self.now) ∥₁ }
        ensures found { (m : ModelTree) → IsFresh m self.now → IfOk result (λ action.
            option_map noted_view action ≡
            slice_get (internal_actions (at_in m self.now) (term_in self.now)) k) }
    {
        let root = self.spot();
        let found = kth_in::<Brand>(
            self.alloc,
            &self.nodes,
            root,
            self.limits.height,
            k,
            Blank::new(1),
        )?;
        Ok(action_of(found))
    }
}
