//! What is computed from the trees of models: their text, their nesting, copies. The types and the
//! definitions are those of `pz_syntax`, which are handed on.
#![tactic(auto)]

mod copying;
mod depth;
pub mod laws;
mod printing;

pub use copying::{copy_expression, copy_model, copy_statement, copy_statements};
pub use depth::nesting;
pub use printing::tokens_of;
pub use pz_syntax::{
    Arg, Channel, ChannelEnd, ClusterClass, DataClass, DataMethod, Decl, Expr, ExprForm, Given, Id,
    Instance, Keyword, Link, Literal, Mark, Message, Model, Name, Pos, ProcessClass, ProcessMethod,
    Sending, Start, Stmt, StmtForm, Symbol, SystemDecl, Text, Token, TokenKind, VarGroup,
};
