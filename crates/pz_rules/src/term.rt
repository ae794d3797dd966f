use crate::Rest;
use pz_bind_rules::pz_classes_code::{Code, Slot, Step};
use pz_bind_rules::pz_items::{Boxed, Items, Shared};
use pz_bind_rules::pz_syntax::Pos;
use pz_offer::pz_state::FrameId;

/// What is left of a process.
#[derive(Drop)]
pub enum Term {
    Done,
    /// A statement that has not begun: no sequence, `par`, `sel`, guard, `abort` or `interrupt`.
    Leaf(Step),
    /// A delay that has begun, with what is left of it in clock units.
    Wait {
        left: u128,
        pos: Pos,
    },
    /// What is open, and the statements behind it.
    Seq(Boxed<Term>, Rest),
    Par(Items<Term>),
    Sel(Items<Term>),
    /// A guard, at the place of its `[`, which has not acted.
    Guard {
        test: Shared<Code>,
        pos: Pos,
        body: Boxed<Term>,
    },
    /// A method that was called. Its locals stand in the state under the number of the frame; its
    /// outputs are those from number `inputs` on, and go to the `results` of the caller.
    Frame {
        frame: FrameId,
        inputs: usize,
        results: Shared<Items<Slot>>,
        body: Boxed<Term>,
    },
    /// The first part, until the second acts.
    Abort(Boxed<Term>, Boxed<Term>),
    /// The first part, until the second acts, which begins with the statement again.
    Idle(Boxed<Term>, Boxed<Term>, Shared<Step>),
    /// The second part acts, and the first stands still.
    Handling(Boxed<Term>, Boxed<Term>, Shared<Step>),
}
