//! The rules of the parser for statements.
#![tactic(auto)]

mod branches;
mod grammar;
mod kept;
mod messages;
mod nested;
mod single;

pub use grammar::stmts;
