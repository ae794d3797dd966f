ghost use Rattle.std.specs.Prelude.{◌≡◌, IfOk};

use crate::{Code, Slot};
use pz_syntax::pz_items::{Boxed, Items, Shared};
use pz_syntax::{Id, Pos};
use std::alloc::AllocError;

/// A statement of a method's body, at the place of its first token. Variables are slots, and ports
/// are their numbers in the class. Its form is shared, so that copies are cheap and take 16 bytes.
#[cycle(step)]
pub struct Step {
    pub pos: Pos,
    pub form: Shared<StepForm>,
}

// Written out for the same reason as that of `Code`.
impl Drop for Step {
    #[cycle(drop_step)]
    fn drop(self) {
        let Step { pos: _, form } = self;
        std::mem::drop(form);
    }
}

impl Step {
    /// An equal statement, which holds the same form. Takes constant time and no memory. The only error
    /// is that the form has as many owners as can be counted.
    pub fn copy(&self) -> Result<Step, AllocError>
        ensures { IfOk result (λ copy. copy ≡ self.now) }
    {
        Ok(Step {
            pos: self.pos,
            form: self.form.copy()?,
        })
    }
}

/// The forms of statements, as in the syntax, but for `Eval`: an assignment, or an expression that
/// is a statement. Parts that what is left of a process holds by itself are shared too. The block of a
/// receive is in a box so that a form takes 56 bytes, since a text may have one for every two bytes.
#[cycle(step)]
#[derive(Drop)]
pub enum StepForm {
    Skip,
    Delay(Code),
    Group(Shared<Items<Step>>),
    Block(Shared<Items<Code>>),
    Guard(Shared<Code>, Shared<Step>),
    Par(Shared<Items<Shared<Items<Step>>>>),
    Sel(Shared<Items<Shared<Items<Step>>>>),
    If(Shared<Code>, Shared<Items<Step>>, Option<Shared<Items<Step>>>),
    While(Shared<Code>, Shared<Items<Step>>),
    Abort(Shared<Items<Step>>, Shared<Step>),
    Interrupt(Shared<Items<Step>>, Shared<Step>),
    Send {
        port: u32,
        name: Shared<Id>,
        args: Option<Shared<Items<Code>>>,
        block: Option<Shared<Items<Code>>>,
    },
    /// Where there is a condition, `into` is there, and may be empty.
    Receive {
        port: u32,
        name: Shared<Id>,
        into: Option<Shared<Items<Slot>>>,
        condition: Option<Shared<Code>>,
        block: Boxed<Option<Shared<Items<Code>>>>,
    },
    Call {
        method: Shared<Id>,
        args: Shared<Items<Code>>,
        results: Shared<Items<Slot>>,
    },
    Eval(Code),
}
