// Gates that open or shut as time passes.

ghost use Rattle.std.specs.Prelude.{◌≡◌};
ghost use Rattle.pz_tree_refreshing.specs.pz_tree_nodes.View.{head_view};
ghost use Rattle.pz_tree_elapsing.specs.devices.Wakes as device;

use pz_tree_refreshing::pz_tree_nodes::Head;

/// What became of the gate of a node.
#[derive(Clone, Copy)]
pub enum Turn {
    /// What was active is active.
    Same,
    /// It shut.
    Shut,
    /// It opened.
    Opened,
}

fn turn_by(was_open: bool, is_open: bool) -> Turn
    ensures { result ≡ device.turn_by was_open is_open }
{
    match (was_open, is_open) {
        (true, true) => Turn::Same,
        (true, false) => Turn::Shut,
        (false, true) => Turn::Opened,
        (false, false) => Turn::Same,
    }
}

/// Of a node that has become this, and whose first child was active or not.
pub(crate) fn turn_of(was_open: bool, head: &Head) -> Turn
    ensures { result ≡ device.turn_of was_open (head_view head.now) }
{
    match head {
        Head::Guard { shift, .. } => turn_by(was_open, shift.since().is_none()),
        Head::Leaf(_) => Turn::Same,
        Head::Wait { .. } => Turn::Same,
        Head::Seq(_) => Turn::Same,
        Head::Par => Turn::Same,
        Head::Sel => Turn::Same,
        Head::Frame { .. } => Turn::Same,
        Head::Abort => Turn::Same,
        Head::Idle(..) => Turn::Same,
        Head::Handling(..) => Turn::Same,
        Head::Shifted(_) => Turn::Same,
    }
}
