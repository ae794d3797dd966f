//! What is left to do. A `depth` says how deep the expressions that follow may stand.

use pz_classes_code::pz_items::Items;
use pz_classes_code::pz_syntax::{Id, Pos, Symbol};
use pz_classes_code::pz_value::Value;
use pz_classes_code::{Code, CodeLink, CodeSending, Slot};
use pz_state::FrameId;

/// Where an expression stands: in a method of the process, whose locals are those of this frame, or in
/// a data method of the object with this number.
#[derive(Clone, Copy, Debug)]
pub enum Site {
    Process(FrameId),
    Object(u32),
}

/// A selector on its way to its receiver: its arguments so far, and the selectors that are sent to what
/// it gives.
#[derive(Drop)]
pub struct Request<'a> {
    pub depth: u32,
    pub receiver: Value,
    pub selector: &'a Id,
    pub arguments: Vec<Value>,
    pub more: &'a [CodeSending],
}

/// What is done with a value.
#[derive(Drop)]
pub enum Task<'a> {
    /// It is the value of a list so far, of which these are left.
    Sequence {
        depth: u32,
        rest: &'a [Code],
    },
    /// It is the left operand of the first of these operators.
    Operators {
        depth: u32,
        links: &'a [CodeLink],
    },
    /// It is the right operand of this operator, behind which these are left.
    Operand {
        depth: u32,
        left: Value,
        link: &'a CodeLink,
        rest: &'a [CodeLink],
    },
    /// It is the receiver of the first of these selectors.
    Selectors {
        depth: u32,
        sendings: &'a [CodeSending],
    },
    /// It is an argument, behind which these are left.
    Argument {
        request: Box<Request<'a>>,
        rest: &'a [Code],
    },
    /// It is the operand of this operator.
    Unary {
        op: Symbol,
        at: Pos,
    },
    /// A variable gets it.
    Assign {
        slot: Slot,
    },
    /// The body of the method ends with it.
    Return,
    /// It chooses a part of an `if`.
    If {
        depth: u32,
        at: Pos,
        part: &'a [Code],
        other: &'a Option<Items<Code>>,
    },
    /// It says whether a `while` has a further turn.
    Test {
        depth: u32,
        at: Pos,
        test: &'a Code,
        body: &'a [Code],
    },
    /// A turn of a `while` ends with it.
    Turn {
        depth: u32,
        at: Pos,
        test: &'a Code,
        body: &'a [Code],
    },
}

/// A method that runs: where, its locals if it is a data method, and what is left to do, the latest
/// task last.
#[derive(Drop)]
pub struct Activation<'a> {
    pub site: Site,
    pub locals: Vec<Value>,
    pub tasks: Vec<Task<'a>>,
}
