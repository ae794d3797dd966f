// Who says whether a receive takes the values of a send: the tree of its process.

ghost use Rattle.pz_bind.specs.pz_classes.CheckedView.{checked_model};

use pz_bind::pz_classes::Checked;
use pz_match::Judge;
use pz_nodes::Steps;
use pz_rules::pz_copy::Parcel;
use pz_rules::pz_offer::{End, Verdict};
use pz_tree::Tree;
use std::alloc::AllocError;
use std::sync::ledger::Ledger;

/// The trees of all processes, at this clock. A question is a step.
#[derive(Drop)]
pub(crate) struct TreeJudge<'a, L: Ledger> {
    pub(crate) trees: &'a mut [Tree],
    pub(crate) checked: &'a Checked,
    pub(crate) clock: u128,
    pub(crate) steps: &'a mut Steps<L>,
}

impl<'a, L: Ledger> Judge for TreeJudge<'a, L> {
    ghost use Rattle.std.specs.Prelude.{◌∷◌};
    ghost use Rattle.pz_sim.specs.devices.Borrowed.{told};
    ghost use Rattle.pz_sim.specs.devices.Questions.{Takes, verdict_in};

    ghost takes = { λ j s p r. Takes (checked_model j.checked.now) j.clock j.trees.now r };

    ghost verdict = { λ j s p r. verdict_in (checked_model j.checked.now) j.trees.now r p };

    ghost asked = { λ j. j.steps.now };

    // With the trees themselves, which stay as they are.
    ghost lent = { λ j. j.trees.ghost_name ∷ j.steps.ghost_name ∷ told j.trees.now };

    fn judge(
        &mut self,
        _sender: &End,
        parcel: &Parcel,
        receiver: &End,
    ) -> Result<Verdict, AllocError> {
        pz_sim_laws::laws::receives_say_one_thing();
        self.steps.tick();
        let tree = &mut self.trees[receiver.process as usize];
        tree.verdict(self.checked, self.clock, &receiver.place, parcel)
    }
}
