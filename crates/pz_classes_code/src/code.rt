use crate::Slot;
use pz_syntax::pz_items::{Boxed, Items};
use pz_syntax::{Id, Literal, Pos, Symbol};
use pz_value::ClassId;

/// An expression of a method's body, at the place of its first token. Variables are slots, and
/// classes are numbers.
#[cycle(code)]
pub struct Code {
    pub pos: Pos,
    pub form: CodeForm,
}

// Written out, so that it is proved once, here: a derived one is proved again in each crate that
// drops such a value, and there in each function that has one.
impl Drop for Code {
    #[cycle(drop_code)]
    fn drop(self) {
        let Code { pos: _, form } = self;
        std::mem::drop(form);
    }
}

/// The forms of expressions, as in the syntax, with what is largest of them in a box.
#[cycle(code)]
#[derive(Drop)]
pub enum CodeForm {
    Lit(Literal),
    Var(Slot),
    Me,
    Clock,
    New(ClassId),
    Group(Items<Code>),
    Chain(Boxed<Code>, Items<CodeLink>),
    Sends(Boxed<Code>, Items<CodeSending>),
    Unary(Symbol, Boxed<Code>),
    Assign(Slot, Boxed<Code>),
    Return(Boxed<Code>),
    If(Boxed<Code>, Boxed<Items<Code>>, Boxed<Option<Items<Code>>>),
    While(Boxed<Code>, Items<Code>),
}

/// An operator, at its place, and its right operand.
#[cycle(code)]
#[derive(Drop)]
pub struct CodeLink {
    pub op: Symbol,
    pub pos: Pos,
    pub operand: Code,
}

/// A selector and its arguments, if a pair of brackets is written.
#[cycle(code)]
#[derive(Drop)]
pub struct CodeSending {
    pub selector: Id,
    pub args: Option<Items<Code>>,
}
