// The part at a place, as a term of its own.

ghost use Rattle.std.specs.Prelude.{◌≡◌, ◌≤◌, ◌+◌, IfOk};
ghost use Rattle.pz_nodes.specs.Arena.{find};
ghost use Rattle.pz_nodes_shapes.specs.Seen.{seen};
ghost use Rattle.pz_rules.specs.View.{term_view};
ghost use Rattle.pz_tree_regrowing.specs.pz_tree_nodes.View.{head_view, what_view};
ghost use Rattle.pz_tree_acting.specs.devices.Parts.{PartRule, HeadRule};

use pz_nodes::{Nodes, Steps};
use pz_rules::Term;
use pz_tree_regrowing::pz_tree_nodes::{Head, Node, Spot};
use std::alloc::AllocError;
use std::sync::ledger::Ledger;

// The part that a node stands for by itself. No other than these acts.
fn own_part(head: &Head, clock: u128) -> Result<Term, AllocError>
    ensures { IfOk result (λ part. HeadRule (head_view head.now) clock (term_view part)) }
{
    match head {
        Head::Leaf(step) => Ok(Term::Leaf(step.copy()?)),
        Head::Wait { due, pos } => Ok(Term::Wait {
            left: due.saturating_sub(clock),
            pos: *pos,
        }),
        _ => Ok(Term::Done),
    }
}

/// The part at a spot whose topmost node is no shift node, if it is one statement, begun or not; its statement is
/// shared. The only error is that it has as many owners as can be counted.
pub(crate) fn part_under<L: Ledger>(
    nodes: &Nodes<Node>,
    spot: Spot,
    steps: &mut Steps<L>,
) -> Result<Term, AllocError>
    ensures part { IfOk result (λ part. PartRule (seen what_view (find nodes.now))
        spot.key spot.clock
        (term_view part)) }
    ensures ticks { steps.new ≤ steps.old + 1 }
{
    let Some(key) = spot.key else {
        return Ok(Term::Done);
    };
    match nodes.get(key, steps) {
        Some(node) => own_part(&node.what.head, spot.clock),
        None => Ok(Term::Done),
    }
}
