// Active sends, each with its parcel.

ghost use Rattle.std.specs.Prelude.{◌≡◌, ℕ, IfOk, OnOk};
ghost use Rattle.pz_classes_code.specs.pz_syntax.Classes.{ModelTree};
ghost use Rattle.pz_part_queries.specs.pz_eval.Known.{AreKnown};
ghost use Rattle.pz_nodes.specs.Arena.{find};
ghost use Rattle.pz_part_queries.specs.Standpoints.{Knows, seen_from};
ghost use Rattle.pz_tree_offering.specs.Offers.{SendsRule};
ghost use Rattle.pz_tree_offering.specs.devices.Parts.{SendRule};

use crate::forms::send_form;
use crate::offers::ActiveSend;
use pz_nodes::{Nodes, Steps};
use pz_part_queries::{Standpoint, ask_parcel};
use pz_state::State;
use pz_tree_nodes::pz_tree_standing::pz_rules;
use pz_tree_nodes::{Head, Node, Offering, Part, Spot, list_offering};
use std::alloc::{AllocError, Global};
use std::sync::ledger::Ledger;

// Adds the send of a part, with its parcel.
fn add_send<L: Ledger>(
    alloc: Global,
    here: &Standpoint<'_>,
    state: &mut State,
    nodes: &Nodes<Node>,
    part: Part,
    sends: &mut Vec<ActiveSend>,
    steps: &mut Steps<L>,
) -> Result<(), AllocError>
    requires { AreKnown here.now.classes.now }
    ensures adds { (m : ModelTree) (class : ℕ) → Knows m here.now →
        OnOk result (SendRule (seen_from m here.now class state.old.held) (find nodes.now) part
        sends.old.items sends.new.items) }
    ensures state { state.new ≡ state.old }
{
    pz_rules::laws::evaluations_are_computed();
    let Some(node) = nodes.get(part.key, steps) else {
        return Ok(());
    };
    let Head::Leaf(step) = &node.what.head else {
        return Ok(());
    };
    let Some(send) = send_form(step) else {
        return Ok(());
    };
    let message = send.name.get().name.copy()?;
    match ask_parcel(alloc, here, state, part.frame, send.pos, send.args)? {
        Err(_) => Ok(()),
        Ok(parcel) => {
            sends.push(ActiveSend {
                place: part.place,
                port: send.port,
                message,
                parcel,
            })?;
            Ok(())
        }
    }
}

/// The active sends, by place, of the term that stands at `root` and is no higher than the limits allow,
/// each with the parcel that it would hand over now. The arguments of each are evaluated once, with no
/// effect: the state is as before, whatever is answered. The only error is want of memory.
pub fn active_sends<L: Ledger>(
    alloc: Global,
    here: &Standpoint<'_>,
    state: &mut State,
    nodes: &Nodes<Node>,
    root: Spot,
    steps: &mut Steps<L>,
) -> Result<Vec<ActiveSend>, AllocError>
    requires { AreKnown here.now.classes.now }
    ensures sends { (m : ModelTree) (class : ℕ) → Knows m here.now →
        IfOk result (λ sends. SendsRule (seen_from m here.now class state.old.held)
        (find nodes.now) root.key root.frame.0 root.clock here.now.limits.height sends.items) }
    ensures state { state.new ≡ state.old }
{
    let levels = here.limits.height;
    let parts = list_offering(alloc, nodes, root, Offering::Sends, levels, steps)?;
    let mut sends = Vec::with_capacity(alloc, parts.len())?;
    for part in parts {
        add_send(alloc, here, state, nodes, part, &mut sends, steps)?;
    }
    Ok(sends)
}
