// Time passes.

ghost use Rattle.std.specs.Prelude.{◌≡◌, ◌≤◌, ◌-◌, ◌+◌, ◌*◌, true, false, None, OnOk, IfSome};
ghost use Rattle.pz_nodes.specs.Arena.{find};
ghost use Rattle.pz_bind.specs.pz_classes.CheckedView.{checked_model};
ghost use Rattle.pz_rules.specs.Delays.{Passes};
ghost use Rattle.pz_rules.specs.Leaving as leaving;
ghost use Rattle.pz_tree_acting.specs.pz_tree_standing.Summaries.{summary_of};
ghost use Rattle.pz_tree_acting.specs.pz_tree_standing.Steady.{later};
ghost use Rattle.pz_tree_acting.specs.pz_tree_standing.Soon.{HasRoom};
ghost use Rattle.pz_tree.specs.Trees.{at_in, term_in, IsFresh, woken_in};
ghost use Rattle.pz_tree.specs.devices.Resting.{RestRule};

use crate::tree::Tree;
use pz_bind::pz_classes::Checked;
use pz_nodes::{Key, Nodes, Steps};
use pz_rules::pz_state::FrameId;
use pz_tree_acting::pz_tree_regrowing::pz_tree_nodes::Node;
use pz_tree_elapsing::pz_tree_refreshing::Spot;
use pz_tree_elapsing::{elapse, rests};
use std::alloc::AllocError;
use std::sync::ledger::Ledger;

// Whether nothing wakes in what stands under a key, as time passes to this moment of the clock.
fn rest_under<L: Ledger>(
    nodes: &Nodes<Node>,
    key: Option<Key>,
    clock: u128,
    steps: &mut Steps<L>,
) -> bool
    ensures rests { result ≡ true → RestRule (find nodes.now) key clock steps.old steps.new }
    ensures ticks { steps.new ≤ steps.old + 1 }
{
    let Some(key) = key else {
        return true;
    };
    let root = Spot {
        key,
        frame: FrameId(0),
        clock,
    };
    rests(nodes, root, steps)
}

impl Tree {
    /// Lets time pass to this moment of the clock if nothing wakes in it then: no active delay begins or is over,
    /// and no active part names the clock. Then the answer is true, and what it keeps in short is as before.
    /// Otherwise nothing has changed. Takes one step, and no memory.
    ///
    /// No active part has a trouble, and no active delay is over before this moment.
    pub fn pass_by<L: Ledger>(
        &mut self,
        checked: &Checked,
        clock: u128,
        steps: &mut Steps<L>,
    ) -> bool
        requires fresh { ∥ IsFresh (checked_model checked.now) self.old ∥₁ }
        requires later { self.old.clock ≤ clock }
        requires room { HasRoom clock }
        requires no_trouble { (summary_of (at_in (checked_model checked.now) self.old)
            self.old.clock 0
            (term_in self.old)).trouble ≡ None }
        requires due { IfSome (summary_of (at_in (checked_model checked.now) self.old)
            self.old.clock 0
            (term_in self.old)).due (λ due. clock ≤ due) }
        ensures passes { result ≡ true → IsFresh (checked_model checked.now) self.old →
            Passes (at_in (checked_model checked.now) self.old) (clock - self.old.clock) 0
            (term_in self.old) (term_in self.new) }
        ensures seen { result ≡ true → at_in (checked_model checked.now) self.new ≡
            later (at_in (checked_model checked.now) self.old) (clock - self.old.clock) }
        ensures fresh { result ≡ true → ∥ IsFresh (checked_model checked.now) self.new ∥₁ }
        ensures summary { result ≡ true → IsFresh (checked_model checked.now) self.old →
            summary_of (at_in (checked_model checked.now) self.new) self.new.clock 0
            (term_in self.new)
            ≡ summary_of (at_in (checked_model checked.now) self.old) self.old.clock 0
            (term_in self.old) }
        ensures done { result ≡ true → IsFresh (checked_model checked.now) self.old →
            leaving.is_done (term_in self.new) ≡ leaving.is_done (term_in self.old) }
        ensures unchanged { result ≡ false → self.new ≡ self.old }
        ensures ticks { steps.new ≤ steps.old + 1 }
    {
        pz_rules::laws::walks_list_what_is_active();
        let _model = checked.model();
        if !rest_under(&self.nodes, self.root, clock, steps) {
            return false;
        }
        self.clock = clock;
        true
    }

    /// Lets time pass, to this moment of the clock. What is asked is asked again where that may answer
    /// otherwise, so nothing has to be refreshed. Takes no more than sixteen steps for each node in which
    /// something wakes, and each live node of what becomes active.
    ///
    /// No active part has a trouble, and no active delay is over before this moment. The only error is want
    /// of memory, or that there is more to do than can be counted; then the tree may only be dropped.
    pub fn pass_to<L: Ledger>(
        &mut self,
        checked: &Checked,
        clock: u128,
        steps: &mut Steps<L>,
    ) -> Result<(), AllocError>
        requires fresh { ∥ IsFresh (checked_model checked.now) self.old ∥₁ }
        requires later { self.old.clock ≤ clock }
        requires room { HasRoom clock }
        requires no_trouble { (summary_of (at_in (checked_model checked.now) self.old)
            self.old.clock 0
            (term_in self.old)).trouble ≡ None }
        requires due { IfSome (summary_of (at_in (checked_model checked.now) self.old)
            self.old.clock 0
            (term_in self.old)).due (λ due. clock ≤ due) }
        ensures passes { IsFresh (checked_model checked.now) self.old → OnOk result
            (Passes (at_in (checked_model checked.now) self.old) (clock - self.old.clock) 0
            (term_in self.old) (term_in self.new)) }
        ensures seen { OnOk result (at_in (checked_model checked.now) self.new ≡
            later (at_in (checked_model checked.now) self.old) (clock - self.old.clock)) }
        ensures fresh { OnOk result (∥ IsFresh (checked_model checked.now) self.new ∥₁) }
        ensures ticks { OnOk result (steps.new ≤ steps.old + 16 * woken_in self.old self.new) }
    {
        pz_rules::laws::walks_list_what_is_active();
        let _model = checked.model();
        self.clock = clock;
        let Some(key) = self.root else {
            return Ok(());
        };
        let here = self.standpoint(checked);
        let root = Spot {
            key,
            frame: FrameId(0),
            clock,
        };
        elapse(
            self.alloc,
            &here,
            &mut self.state,
            &mut self.nodes,
            root,
            steps,
        )
    }
}
