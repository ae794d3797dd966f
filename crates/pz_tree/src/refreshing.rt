// What a process is asked is asked again.

ghost use Rattle.std.specs.Prelude.{◌≡◌, ◌≤◌, ◌+◌, ◌*◌, OnOk};
ghost use Rattle.pz_bind.specs.pz_classes.CheckedView.{checked_model};
ghost use Rattle.pz_tree.specs.Trees.{at_in, process_in, live_in, IsThere, IsFresh};

use crate::tree::Tree;
use pz_bind::pz_classes::Checked;
use pz_nodes::Steps;
use pz_rules::pz_state::FrameId;
use pz_tree_elapsing::pz_tree_refreshing::{Spot, refresh};
use std::alloc::AllocError;
use std::sync::ledger::Ledger;

impl Tree {
    /// What there is to ask is asked again: guards, delays that have not begun and the arguments of sends, as
    /// far as they are active. Its process stays as it is. Takes no more steps than sixteen for each live
    /// node, and sixteen more.
    ///
    /// The clock is that of the tree. The only error is want of memory, or that there is more to do than can
    /// be counted; then the tree may only be dropped.
    pub fn refresh<L: Ledger>(
        &mut self,
        checked: &Checked,
        clock: u128,
        steps: &mut Steps<L>,
    ) -> Result<(), AllocError>
        requires there { ∥ IsThere (checked_model checked.now) self.old ∥₁ }
        requires clock { clock ≡ self.old.clock }
        ensures fresh { OnOk result (∥ IsFresh (checked_model checked.now) self.new ∥₁) }
        ensures process { IsThere (checked_model checked.now) self.old →
            OnOk result (process_in self.new ≡ process_in self.old) }
        ensures seen { OnOk result (at_in (checked_model checked.now) self.new ≡
            at_in (checked_model checked.now) self.old) }
        ensures ticks { OnOk result (steps.new ≤ steps.old + 16 * (1 + live_in self.new)) }
    {
        let Some(key) = self.root else {
            return Ok(());
        };
        let here = self.standpoint(checked);
        let root = Spot {
            key,
            frame: FrameId(0),
            clock: self.clock,
        };
        refresh(
            self.alloc,
            &here,
            &mut self.state,
            &mut self.nodes,
            root,
            steps,
        )
    }
}
