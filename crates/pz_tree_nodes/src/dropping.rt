ghost use Rattle.std.specs.Prelude.{◌≡◌, ◌≤◌, ◌++◌, OnOk};
ghost use Rattle.pz_nodes.specs.Arena.{find, live};
ghost use Rattle.pz_tree_nodes.specs.View.{head_view};
ghost use Rattle.pz_tree_nodes.specs.Dropping.{numbers, DropRule, DropAllRule};
ghost use Rattle.pz_tree_nodes.specs.devices.Frames.{frames_here};

use crate::{Head, Node};
use pz_nodes::{Key, Nodes, Steps};
use pz_rules::pz_state::FrameId;
use std::alloc::AllocError;
use std::sync::ledger::Ledger;

// The frame of a node that is one.
fn hand_out(head: &Head, frames: &mut Vec<FrameId>) -> Result<(), AllocError>
    ensures { OnOk result (numbers frames.new.items ≡ numbers frames.old.items ++ frames_here
        (head_view head.now)) }
{
    match head {
        Head::Frame { frame, .. } => {
            frames.push(*frame)?;
            Ok(())
        }
        _ => Ok(()),
    }
}

/// Frees the node under the key and all below it, one step a node. The frames that stood there come behind
/// those that were handed out before, each before those within it and a part before those to its right.
///
/// The only error is want of memory; then the nodes may only be dropped.
#[cycle(dropping)]
pub fn drop_part<L: Ledger>(
    nodes: &mut Nodes<Node>,
    key: Key,
    frames: &mut Vec<FrameId>,
    steps: &mut Steps<L>,
) -> Result<(), AllocError>
    ensures live { live nodes.new ≤ live nodes.old }
    ensures dropped { OnOk result (DropRule (find nodes.old) (find nodes.new) key
        (numbers frames.old.items) (numbers frames.new.items) steps.old steps.new) }
{
    let Some(node) = nodes.remove(key, steps) else {
        return Ok(());
    };
    hand_out(&node.what.head, frames)?;
    drop_parts(nodes, node.kids.as_slice(), frames, steps)
}

/// The same of all that stands under these keys, as under those of the children of a node.
#[cycle(dropping)]
pub fn drop_parts<L: Ledger>(
    nodes: &mut Nodes<Node>,
    keys: &[Option<Key>],
    frames: &mut Vec<FrameId>,
    steps: &mut Steps<L>,
) -> Result<(), AllocError>
    ensures live { live nodes.new ≤ live nodes.old }
    ensures dropped { OnOk result (DropAllRule (find nodes.old) (find nodes.new) keys.now
        (numbers frames.old.items) (numbers frames.new.items) steps.old steps.new) }
{
    for key in keys {
        if let Some(key) = key {
            drop_part(nodes, *key, frames, steps)?;
        }
    }
    Ok(())
}
