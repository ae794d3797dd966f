ghost use Rattle.std.specs.Prelude.{◌≡◌, IfOk};

use crate::{Id, Name, Pos, Symbol};
use pz_items::{Boxed, Items, Shared, Text};
use std::alloc::AllocError;

/// A constant of the text. Of a float only its presence is kept.
#[derive(Drop)]
pub enum Literal {
    Int(i64),
    Float,
    Char(u8),
    Str(Shared<Text>),
    True,
    False,
    Nil,
}

impl Literal {
    /// An equal literal. Takes constant time and no memory. The only error is that a string has as many
    /// owners as can be counted.
    pub fn copy(&self) -> Result<Literal, AllocError>
        ensures { IfOk result (λ copy. copy ≡ self.now) }
    {
        Ok(match self {
            Literal::Int(n) => Literal::Int(*n),
            Literal::Float => Literal::Float,
            Literal::Char(b) => Literal::Char(*b),
            Literal::Str(text) => Literal::Str(text.copy()?),
            Literal::True => Literal::True,
            Literal::False => Literal::False,
            Literal::Nil => Literal::Nil,
        })
    }
}

/// An expression, at the place of its first token.
#[cycle(expr)]
pub struct Expr {
    pub pos: Pos,
    pub form: ExprForm,
}

// Written out, so that it is proved once, here: a derived one is proved again in each crate that
// drops an expression, and there in each function that has one.
impl Drop for Expr {
    #[cycle(drop_expr)]
    fn drop(self) {
        let Expr { pos: _, form } = self;
        std::mem::drop(form);
    }
}

/// The forms of expressions. `Me` is `self` and `Clock` is `currentTime`. What is in a box is there so that
/// an expression takes 40 bytes, since a text may have one for each byte.
#[cycle(expr)]
#[derive(Drop)]
pub enum ExprForm {
    Lit(Literal),
    Var(Name),
    Me,
    Clock,
    New(Boxed<Id>),
    Group(Items<Expr>),
    /// Operators of one level, applied from left to right. At least one link.
    Chain(Boxed<Expr>, Boxed<Items<Link>>),
    /// Selectors applied from left to right. At least one sending.
    Sends(Boxed<Expr>, Boxed<Items<Sending>>),
    Unary(Symbol, Boxed<Expr>),
    Assign(Boxed<Id>, Boxed<Expr>),
    Return(Boxed<Expr>),
    If(Boxed<Expr>, Boxed<Items<Expr>>, Boxed<Option<Items<Expr>>>),
    While(Boxed<Expr>, Boxed<Items<Expr>>),
}

/// An operator, at its place, and its right operand.
#[cycle(expr)]
#[derive(Drop)]
pub struct Link {
    pub op: Symbol,
    pub pos: Pos,
    pub operand: Expr,
}

/// A selector and its arguments, if a pair of brackets is written.
#[cycle(expr)]
#[derive(Drop)]
pub struct Sending {
    pub selector: Id,
    pub args: Option<Items<Expr>>,
}
