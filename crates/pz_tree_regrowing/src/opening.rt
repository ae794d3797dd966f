// What opens.

ghost use Rattle.std.specs.Prelude.{◌≡◌, ◌+◌, ◌++◌, IfOk, OnOk};
ghost use Rattle.pz_nodes.specs.Arena.{find};
ghost use Rattle.pz_rules.specs.Terms.{frames_in};
ghost use Rattle.pz_rules.specs.View.{term_view};
ghost use Rattle.pz_tree_nodes.specs.Planting.{nodes_of, EndsInTime, Planted};

use pz_nodes::{Key, Nodes, Steps};
use pz_rules::Term;
use pz_term_frames::list_frames;
use pz_tree_nodes::{Node, plant};
use std::alloc::{AllocError, Global};
use std::sync::ledger::Ledger;

/// Plants what opens. The frames that stand in it come behind those that were gathered.
pub(crate) fn plant_opened<L: Ledger>(
    alloc: Global,
    nodes: &mut Nodes<Node>,
    term: Term,
    clock: u128,
    gained: &mut Vec<u64>,
    steps: &mut Steps<L>,
) -> Result<Option<Key>, AllocError>
    requires { EndsInTime clock (term_view term) }
    ensures planted { IfOk result (λ out. Planted (find nodes.old) (find nodes.new) clock
        (term_view term) out) }
    ensures gained { OnOk result (gained.new.items ≡
        gained.old.items ++ frames_in (term_view term)) }
    ensures ticks { OnOk result (steps.new ≡ steps.old + nodes_of (term_view term)) }
{
    list_frames(&term, gained)?;
    plant(alloc, nodes, term, clock, steps)
}
