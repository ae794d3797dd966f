ghost use Rattle.std.specs.Prelude.{◌≡◌, ◌+◌, ◌<◌, ◌≤◌, [], ◌∷◌, Some, None, IfOk};

use pz_nodes::{Key, Nodes, Steps};
use pz_nodes_shapes::{Kids, Node, drop_part, kid_at, laws};
use std::alloc::{AllocError, Global};
use std::sync::ledger::{Blank, Ledger};

/// Three children, of which the second is gone.
pub fn three(alloc: Global) -> Result<Kids, AllocError>
    ensures { IfOk result (λ kids. kids ≡ Some 4 ∷ None ∷ Some 6 ∷ []) }
{
    let mut keys = Vec::new(alloc);
    keys.push(Some(4))?;
    keys.push(Some(5))?;
    keys.push(Some(6))?;
    let mut kids = Kids::many(keys);
    kids.put(1, None);
    Ok(kids)
}

/// A node over two others, of which the first is over one more.
fn plant<L: Ledger>(nodes: &mut Nodes<Node<u32>>, steps: &mut Steps<L>) -> Key
    requires { 4 ≤ nodes.old.spare }
{
    let below = nodes.insert(node(13, Kids::none()), steps);
    let first = nodes.insert(node(11, Kids::one(Some(below))), steps);
    let second = nodes.insert(node(12, Kids::none()), steps);
    nodes.insert(node(10, Kids::two(Some(first), Some(second))), steps)
}

fn node(what: u32, kids: Kids) -> Node<u32> {
    Node { what, kids }
}

/// What is under the key, if there is a key.
fn held<L: Ledger>(
    nodes: &Nodes<Node<u32>>,
    key: Option<Key>,
    steps: &mut Steps<L>,
) -> Option<u32> {
    let node = nodes.get(key?, steps)?;
    Some(node.what)
}

/// The first child is dropped, with what is below it, and the node holds something else.
fn cut<L: Ledger>(nodes: &mut Nodes<Node<u32>>, key: Key, steps: &mut Steps<L>) {
    let second = kid_at(nodes, key, 1, steps);
    if let Some(first) = kid_at(nodes, key, 0, steps) {
        drop_part(nodes, first, steps);
    }
    let _old = nodes.set(key, node(20, Kids::two(None, second)), steps);
}

/// What is under four keys.
pub type Found = [Option<u32>; 4];

fn look<L: Ledger>(
    nodes: &Nodes<Node<u32>>,
    keys: &[Option<Key>; 4],
    steps: &mut Steps<L>,
) -> Found {
    let [key, first, second, below] = *keys;
    [
        held(nodes, key, steps),
        held(nodes, first, steps),
        held(nodes, second, steps),
        held(nodes, below, steps),
    ]
}

/// What is under the keys of the node, of its children, and of the child of the first, before a part is dropped
/// and afterwards.
pub fn plant_and_cut<L: Ledger>(alloc: Global, ledger: Blank) -> Result<(Found, Found), AllocError>
    requires name { ledger.name ≡ L.name }
    requires parts { ledger.parts ≡ L.parts }
    requires some { 0 < L.parts }
{
    laws::nodes_are_taken_and_put::<u32>();
    laws::changes_compose::<u32>();
    laws::shapes_are_read::<u32>();
    laws::shapes_are_seen::<u32, u32>();
    let mut steps = Steps::<L>::new(ledger);
    let mut nodes = Nodes::new(alloc);
    nodes.reserve(4)?;
    let key = plant(&mut nodes, &mut steps);
    let first = kid_at(&nodes, key, 0, &mut steps);
    let second = kid_at(&nodes, key, 1, &mut steps);
    let below = match first {
        Some(kid) => kid_at(&nodes, kid, 0, &mut steps),
        None => None,
    };
    let keys = [Some(key), first, second, below];
    let before = look(&nodes, &keys, &mut steps);
    cut(&mut nodes, key, &mut steps);
    let after = look(&nodes, &keys, &mut steps);
    Ok((before, after))
}
