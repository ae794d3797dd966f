// The internal action of a number, by what the nodes keep.

ghost use Rattle.std.specs.Prelude.{◌≡◌, IfOk};
ghost use Rattle.pz_nodes.specs.Arena.{find};
ghost use Rattle.pz_tree_nodes.specs.View.{head_view};
ghost use Rattle.pz_tree_nodes.specs.Choosing.{ChoiceRule, ChosenRule};
ghost use Rattle.pz_tree_nodes.specs.devices.Counts.{internal, count_under, IsSought};
ghost use Rattle.pz_tree_nodes.specs.devices.Onward.{NextRule};

use crate::found::{ActingPart, Part};
use crate::heads::{Doing, own_action};
use crate::inside::reaches;
use crate::parts::{Spot, child_in, past_shift};
use crate::{Head, Node};
use pz_nodes::{Key, Nodes, Steps};
use pz_rules::pz_offer::Place;
use std::alloc::{AllocError, Global};
use std::sync::ledger::Ledger;

// The child in which an action is, and which of its actions that is.
#[derive(Clone, Copy)]
struct Sought {
    number: usize,
    left: u64,
}

// Where the action is: nowhere, in the part itself, or in a child.
#[derive(Clone, Copy)]
enum Next {
    Nowhere,
    Acts(Key, Doing),
    Into {
        number: usize,
        spot: Spot,
        left: u64,
    },
}

// How many internal actions are below a key.
fn count_at<L: Ledger>(nodes: &Nodes<Node>, kid: Option<Key>, steps: &mut Steps<L>) -> u64
    ensures { result ≡ count_under internal (find nodes.now) kid }
{
    let Some(key) = kid else {
        return 0;
    };
    match nodes.get(key, steps) {
        None => 0,
        Some(node) => node.what.kept.summary.internal,
    }
}

// The child that has the action of this number. Of no other child is more seen than what it keeps.
fn seek<L: Ledger>(
    nodes: &Nodes<Node>,
    head: &Head,
    kids: &[Option<Key>],
    k: u64,
    steps: &mut Steps<L>,
) -> Option<Sought>
    ensures { IsSought (find nodes.now) (head_view head.now) kids.now k result }
{
    let mut left = k;
    for (number, kid) in kids.iter().enumerate() {
        if reaches(head, number) {
            let count = count_at(nodes, *kid, steps);
            if left < count {
                return Some(Sought { number, left });
            }
            left -= count;
        }
    }
    None
}

// Where the action of this number is, of the part that stands at the spot.
fn onward<L: Ledger>(nodes: &Nodes<Node>, spot: Spot, k: u64, steps: &mut Steps<L>) -> Next
    ensures { NextRule (find nodes.now) spot.key spot.frame.0 spot.clock k result }
{
    let Some(key) = spot.key else {
        return Next::Nowhere;
    };
    let Some(node) = nodes.get(key, steps) else {
        return Next::Nowhere;
    };
    if node.what.kept.summary.internal <= k {
        return Next::Nowhere;
    }
    if let Some(doing) = own_action(&node.what.head) {
        return Next::Acts(key, doing);
    }
    match seek(nodes, &node.what.head, node.kids.as_slice(), k, steps) {
        None => Next::Nowhere,
        Some(sought) => Next::Into {
            number: sought.number,
            spot: past_shift(nodes, child_in(node, spot, sought.number), steps),
            left: sought.left,
        },
    }
}

/// The internal action of number `k`, from 0 in the order of places, of the term that stands at `root` and
/// is no higher than `levels`, and the part that can do it; None exactly where the term has no more than
/// `k`. What the nodes keep leads there, one child a level, and nothing is evaluated. The only error is want
/// of memory.
pub fn kth_internal<L: Ledger>(
    alloc: Global,
    nodes: &Nodes<Node>,
    root: Spot,
    levels: u32,
    k: u64,
    steps: &mut Steps<L>,
) -> Result<Option<ActingPart>, AllocError>
    ensures action { IfOk result (ChoiceRule (find nodes.now) root.key root.frame.0 root.clock
        levels k) }
    ensures part { IfOk result (ChosenRule (find nodes.now) root.key root.frame.0
        root.clock levels) }
{
    let mut place = Place::root(alloc);
    let mut spot = past_shift(nodes, root, steps);
    let mut left = k;
    for _level in 0..levels {
        match onward(nodes, spot, left, steps) {
            Next::Nowhere => return Ok(None),
            Next::Acts(key, doing) => {
                return Ok(Some(acting_part(place, key, spot, doing)));
            }
            Next::Into {
                number,
                spot: child,
                left: rest,
            } => {
                place.enter(number)?;
                spot = child;
                left = rest;
            }
        }
    }
    Ok(None)
}

fn acting_part(place: Place, key: Key, spot: Spot, doing: Doing) -> ActingPart
    ensures place { result.part.place ≡ place }
    ensures key { result.part.key ≡ key }
    ensures frame { result.part.frame ≡ spot.frame }
    ensures clock { result.part.clock ≡ spot.clock }
    ensures kind { result.kind ≡ doing.kind }
    ensures pos { result.pos ≡ doing.pos }
{
    ActingPart {
        part: Part {
            place,
            key,
            frame: spot.frame,
            clock: spot.clock,
        },
        kind: doing.kind,
        pos: doing.pos,
    }
}
