// The active parts that send or receive, by what the nodes keep.

ghost use Rattle.std.specs.Prelude.{◌≡◌, [], ◌∷◌, ◌++◌, IfOk, OnOk};
ghost use Rattle.pz_nodes.specs.Arena.{find};
ghost use Rattle.pz_tree_nodes.specs.Listing.{ListRule};
ghost use Rattle.pz_tree_nodes.specs.devices.Adding.{count_in, AddRule, BelowRule};

use crate::found::{Offering, Part};
use crate::inside::reaches;
use crate::parts::{Spot, child_in, past_shift};
use crate::{Head, Node};
use pz_nodes::{Key, Nodes, Steps};
use pz_rules::pz_offer::{Place, Summary};
use std::alloc::{AllocError, Global};
use std::sync::ledger::Ledger;

// How many parts of this sort there are.
fn count(offering: Offering, summary: &Summary) -> u64
    ensures { result ≡ count_in offering summary.now }
{
    match offering {
        Offering::Sends => summary.sends,
        Offering::Receives => summary.receives,
    }
}

// Adds the parts of this sort below a spot, which is at this place. What has none is not entered.
#[cycle(listing)]
fn list_part<L: Ledger>(
    nodes: &Nodes<Node>,
    start: Spot,
    offering: Offering,
    levels: u32,
    place: &mut Place,
    found: &mut Vec<Part>,
    steps: &mut Steps<L>,
) -> Result<(), AllocError>
    ensures adds { OnOk result (AddRule offering (find nodes.now) start.key
        start.frame.0 start.clock
        levels place.old found.old.items found.new.items) }
    ensures place { OnOk result (place.new ≡ place.old) }
{
    let spot = past_shift(nodes, start, steps);
    let Some(key) = spot.key else {
        return Ok(());
    };
    let Some(node) = nodes.get(key, steps) else {
        return Ok(());
    };
    if levels == 0 {
        return Ok(());
    }
    if count(offering, &node.what.kept.summary) == 0 {
        return Ok(());
    }
    if let Head::Leaf(_) = &node.what.head {
        return push_part(place, key, spot, found);
    }
    list_kids(nodes, node, spot, offering, levels - 1, place, found, steps)
}

// Those of the active children of a node.
#[cycle(listing)]
fn list_kids<L: Ledger>(
    nodes: &Nodes<Node>,
    node: &Node,
    spot: Spot,
    offering: Offering,
    levels: u32,
    place: &mut Place,
    found: &mut Vec<Part>,
    steps: &mut Steps<L>,
) -> Result<(), AllocError>
    ensures adds { OnOk result (BelowRule offering (find nodes.now) node.now spot.frame.0 spot.clock
        levels place.old found.old.items found.new.items) }
    ensures place { OnOk result (place.new ≡ place.old) }
{
    for number in 0..node.kids.as_slice().len() {
        if reaches(&node.what.head, number) {
            place.enter(number)?;
            let kid = child_in(node, spot, number);
            list_part(nodes, kid, offering, levels, place, found, steps)?;
            place.leave();
        }
    }
    Ok(())
}

// The part at a spot, which is at this place.
fn push_part(place: &Place, key: Key, spot: Spot, found: &mut Vec<Part>) -> Result<(), AllocError>
    ensures { OnOk result (found.new.items ≡ found.old.items ++ record {
      place = place.now;
      key = key;
      frame = spot.frame;
      clock = spot.clock;
    } ∷ []) }
{
    found.push(Part {
        place: place.copy()?,
        key,
        frame: spot.frame,
        clock: spot.clock,
    })?;
    Ok(())
}

/// The active parts that send, or those that receive, by place, of the term that stands at `root` and is no
/// higher than `levels`. What the nodes keep leads to them: nothing is evaluated, and what has none is not
/// entered. The only error is want of memory.
pub fn list_offering<L: Ledger>(
    alloc: Global,
    nodes: &Nodes<Node>,
    root: Spot,
    offering: Offering,
    levels: u32,
    steps: &mut Steps<L>,
) -> Result<Vec<Part>, AllocError>
    ensures { IfOk result (λ parts. ListRule offering (find nodes.now) root.key root.frame.0
        root.clock levels parts.items) }
{
    let mut place = Place::root(alloc);
    let mut found = Vec::new(alloc);
    list_part(nodes, root, offering, levels, &mut place, &mut found, steps)?;
    Ok(found)
}
