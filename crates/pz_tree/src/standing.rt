// How a tree sees its model and its nodes.

ghost use Rattle.std.specs.Prelude.{◌≡◌};
ghost use Rattle.pz_rules.specs.pz_syntax.Classes.{ModelTree};
ghost use Rattle.pz_bind.specs.pz_classes.CheckedView.{checked_model};
ghost use Rattle.pz_term_processes.specs.pz_eval.Known.{AreKnown};
ghost use Rattle.pz_term_processes.specs.pz_part_queries.Standpoints.{Knows, seen_from};
ghost use Rattle.pz_tree.specs.Trees.{at_in};

use crate::tree::Tree;
use pz_bind::pz_classes::Checked;
use pz_rules::pz_state::FrameId;
use pz_term_processes::pz_part_actions::pz_part_queries::Standpoint;
use pz_tree_acting::pz_tree_regrowing::pz_tree_nodes::Spot;

impl Tree {
    // Where the whole term stands: in no frame.
    pub(crate) fn spot(&self) -> Spot
        ensures key { result.key ≡ self.now.root }
        ensures frame { result.frame.0 ≡ 0 }
        ensures clock { result.clock ≡ self.now.clock }
    {
        Spot {
            key: self.root,
            frame: FrameId(0),
            clock: self.clock,
        }
    }

    // From where its statements see the model.
    pub(crate) fn standpoint<'a>(&self, checked: &'a Checked) -> Standpoint<'a>
        ensures seen { (m : ModelTree) →
            seen_from m result self.now.class.0 self.now.state.held ≡ at_in m self.now }
        ensures knows { Knows (checked_model checked.now) result }
        ensures known { AreKnown result.classes.now }
        ensures limits { result.limits ≡ self.now.limits }
        ensures process { result.process ≡ self.now.process }
        ensures clock { result.clock ≡ self.now.clock }
    {
        Standpoint {
            classes: checked.classes(),
            limits: self.limits,
            process: self.process,
            clock: self.clock,
        }
    }
}
