// What becomes of parts, and how a node is put over them.

ghost use Rattle.std.specs.Prelude.{◌≡◌, ◌+◌, ◌<◌, length, slice_index_or, slice_set, IfOk, OnOk};
ghost use Rattle.pz_nodes.specs.Arena.{find};
ghost use Rattle.pz_tree_nodes.specs.Keeping.{raised};
ghost use Rattle.pz_tree_nodes.specs.devices.Parts.{IsPut, Puts};

use crate::{Head, Kept, Node, What};
use pz_nodes::{Key, Nodes, Steps};
use pz_nodes_shapes::Kids;
use pz_rules::Term;
use std::alloc::AllocError;
use std::mem;
use std::sync::ledger::Ledger;

/// What became of a part: the key of its topmost node, if it was not done, and what is kept of it.
#[derive(Clone, Copy)]
pub(crate) struct PlantedPart {
    pub(crate) key: Option<Key>,
    pub(crate) kept: Kept,
}

/// Of two parts.
#[derive(Drop)]
pub(crate) struct PlantedTwo {
    pub(crate) kids: Kids,
    pub(crate) first: Kept,
    pub(crate) second: Kept,
}

/// Of parts side by side, with what is kept of all.
#[derive(Drop)]
pub(crate) struct PlantedAll {
    pub(crate) kids: Kids,
    pub(crate) kept: Kept,
}

/// Puts another part in the place of one, which it hands out.
pub(crate) fn exchange(parts: &mut Vec<Term>, place: usize, part: Term) -> Term
    requires { place < length parts.old.items }
    ensures old { result ≡ slice_index_or parts.old.items place result }
    ensures new { parts.new.items ≡ slice_set parts.old.items place part }
{
    mem::replace(&mut parts[place], part)
}

/// Puts something under a key that had nothing. The only error is want of memory.
fn insert<T: Drop, L: Ledger>(
    nodes: &mut Nodes<T>,
    node: T,
    steps: &mut Steps<L>,
) -> Result<Key, AllocError>
    ensures put { IfOk result (λ key. IsPut (find nodes.old) (find nodes.new) key node) }
    ensures ticks { OnOk result (steps.new ≡ steps.old + 1) }
{
    nodes.reserve(1)?;
    Ok(nodes.insert(node, steps))
}

/// Puts a node over children. The only error is want of memory.
pub(crate) fn put<L: Ledger>(
    nodes: &mut Nodes<Node>,
    head: Head,
    kids: Kids,
    kept: Kept,
    steps: &mut Steps<L>,
) -> Result<PlantedPart, AllocError>
    ensures { IfOk result (λ part. Puts (find nodes.old) (find nodes.new) head kids kept
        steps.old steps.new part.key part.kept) }
{
    let node = Node {
        what: What { head, kept },
        kids,
    };
    let key = insert(nodes, node, steps)?;
    Ok(PlantedPart {
        key: Some(key),
        kept,
    })
}

/// The same over parts of which this is kept. The only error is want of memory, or that the node is higher
/// than can be counted.
pub(crate) fn put_over<L: Ledger>(
    nodes: &mut Nodes<Node>,
    head: Head,
    kids: Kids,
    parts: &Kept,
    steps: &mut Steps<L>,
) -> Result<PlantedPart, AllocError>
    ensures { IfOk result (λ part. Puts (find nodes.old) (find nodes.new) head kids
        (raised parts.now) steps.old steps.new part.key part.kept) }
{
    let kept = parts.raised()?;
    put(nodes, head, kids, kept, steps)
}
