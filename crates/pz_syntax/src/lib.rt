//! The syntax of POOSL: tokens and their marks, the trees of models, and what is said of them: their
//! text, which of them the grammar has, their nesting and their heads.
#![tactic(auto)]

mod classes;
mod clusters;
mod exprs;
mod names;
mod stmts;
mod tokens;

pub use classes::{DataClass, DataMethod, Message, ProcessClass, ProcessMethod, Start, VarGroup};
pub use clusters::{
    Arg, Channel, ChannelEnd, ClusterClass, Decl, Given, Instance, Model, SystemDecl,
};
pub use exprs::{Expr, ExprForm, Link, Literal, Sending};
pub use names::{Id, Name};
pub use pz_items;
pub use pz_items::Text;
pub use stmts::{Stmt, StmtForm};
pub use tokens::{Keyword, Mark, Pos, Symbol, Token, TokenKind};
