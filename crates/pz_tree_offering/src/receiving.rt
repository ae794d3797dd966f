// Active receives.

ghost use Rattle.std.specs.Prelude.{IfOk, OnOk};
ghost use Rattle.pz_nodes.specs.Arena.{find};
ghost use Rattle.pz_tree_offering.specs.Offers.{ReceivesRule};
ghost use Rattle.pz_tree_offering.specs.devices.Parts.{ReceiveRule};

use crate::forms::receive_form;
use crate::offers::ActiveReceive;
use pz_nodes::{Nodes, Steps};
use pz_tree_nodes::{Head, Node, Offering, Part, Spot, list_offering};
use std::alloc::{AllocError, Global};
use std::sync::ledger::Ledger;

// Adds the receive of a part.
fn add_receive<L: Ledger>(
    nodes: &Nodes<Node>,
    part: Part,
    receives: &mut Vec<ActiveReceive>,
    steps: &mut Steps<L>,
) -> Result<(), AllocError>
    ensures { OnOk result (ReceiveRule (find nodes.now) part receives.old.items
        receives.new.items) }
{
    let Some(node) = nodes.get(part.key, steps) else {
        return Ok(());
    };
    let Head::Leaf(step) = &node.what.head else {
        return Ok(());
    };
    let Some(receive) = receive_form(step) else {
        return Ok(());
    };
    let message = receive.name.get().name.copy()?;
    receives.push(ActiveReceive {
        place: part.place,
        port: receive.port,
        message,
        count: receive.count,
        conditional: receive.conditional,
        uses_clock: node.what.kept.clocked,
    })?;
    Ok(())
}

/// The active receives, by place, of the term that stands at `root` and is no higher than `levels`. Nothing
/// is evaluated. The only error is want of memory.
pub fn active_receives<L: Ledger>(
    alloc: Global,
    nodes: &Nodes<Node>,
    root: Spot,
    levels: u32,
    steps: &mut Steps<L>,
) -> Result<Vec<ActiveReceive>, AllocError>
    ensures { IfOk result (λ receives. ReceivesRule (find nodes.now) root.key root.frame.0
        root.clock levels receives.items) }
{
    let parts = list_offering(alloc, nodes, root, Offering::Receives, levels, steps)?;
    let mut receives = Vec::with_capacity(alloc, parts.len())?;
    for part in parts {
        add_receive(nodes, part, &mut receives, steps)?;
    }
    Ok(receives)
}
