ghost use Rattle.std.specs.Prelude.{◌≡◌};

use crate::Kept;
use pz_classes_code::pz_items::{Items, Shared};
use pz_classes_code::pz_syntax::Pos;
use pz_classes_code::{Code, Slot, Step};
use pz_clock::Shift;
use pz_rules::Rest;
use pz_rules::pz_state::FrameId;

/// A node of an execution tree as it lies in the map.
pub type Node = pz_nodes_shapes::Node<What>;

/// What a node is, but for its children. Statements are shared with those from which they were opened.
#[derive(Drop)]
pub enum Head {
    /// A statement that has not begun: no sequence, `par`, `sel`, guard, `abort` or `interrupt`.
    Leaf(Step),
    /// A delay that has begun, and the moment of its own clock at which it is over, in clock units.
    Wait {
        due: u128,
        pos: Pos,
    },
    /// The child is open, and these statements stand behind it.
    Seq(Rest),
    Par,
    Sel,
    /// A guard that has not acted, at the place of its `[`, and the clock of its body.
    Guard {
        test: Shared<Code>,
        pos: Pos,
        shift: Shift,
    },
    /// A method that was called, as in a term.
    Frame {
        frame: FrameId,
        inputs: usize,
        results: Shared<Items<Slot>>,
    },
    /// The first child, until the second acts.
    Abort,
    /// The same, and what the second begins with again; with the clock of the first.
    Idle(Shared<Step>, Shift),
    /// The second child acts, and the first stands still, with its clock.
    Handling(Shared<Step>, Shift),
    /// What a guard leaves that has acted and whose clock is behind. It is no part of the term.
    Shifted(Shift),
}

/// What a node is, and what it keeps of its term.
pub struct What {
    pub head: Head,
    pub kept: Kept,
}

// Written out, so that it is proved once, here, and not in each function that drops a node.
impl Drop for What {
    fn drop(self) {
        let What { head, kept: _ } = self;
        std::mem::drop(head);
    }
}

impl What {
    /// What the node is.
    pub fn into_head(self) -> Head
        ensures { result ≡ self.head }
    {
        let What { head, kept: _ } = self;
        head
    }
}
