use crate::{Expr, Id, Pos};
use pz_items::{Boxed, Items};

/// A statement, at the place of its first token.
#[cycle(stmt)]
pub struct Stmt {
    pub pos: Pos,
    pub form: StmtForm,
}

// Written out for the same reason as that of `Expr`.
impl Drop for Stmt {
    #[cycle(drop_stmt)]
    fn drop(self) {
        let Stmt { pos: _, form } = self;
        std::mem::drop(form);
    }
}

/// The forms of statements. What is optional is kept as written or not written. What is in a box is there
/// so that a statement takes 56 bytes, since a text may have one for every two bytes.
#[cycle(stmt)]
#[derive(Drop)]
pub enum StmtForm {
    Skip,
    Delay(Expr),
    Group(Items<Stmt>),
    Block(Items<Expr>),
    Guard(Boxed<Expr>, Boxed<Stmt>),
    Par(Items<Items<Stmt>>),
    Sel(Items<Items<Stmt>>),
    If(Boxed<Expr>, Boxed<Items<Stmt>>, Option<Boxed<Items<Stmt>>>),
    While(Boxed<Expr>, Items<Stmt>),
    Abort(Items<Stmt>, Boxed<Stmt>),
    Interrupt(Items<Stmt>, Boxed<Stmt>),
    Send {
        port: Boxed<Id>,
        name: Boxed<Id>,
        args: Option<Boxed<Items<Expr>>>,
        block: Boxed<Option<Boxed<Items<Expr>>>>,
    },
    /// Where there is a condition, `into` is there, and may be empty.
    Receive {
        port: Boxed<Id>,
        name: Boxed<Id>,
        into: Boxed<Option<Boxed<Items<Id>>>>,
        condition: Boxed<Option<Boxed<Expr>>>,
        block: Boxed<Option<Boxed<Items<Expr>>>>,
    },
    Call {
        method: Boxed<Id>,
        args: Items<Expr>,
        results: Boxed<Items<Id>>,
    },
    Assign(Boxed<Id>, Boxed<Expr>),
    Value(Expr),
}
