//! The rules of the parser for values and expressions.
#![tactic(auto)]

mod chains;
mod grammar;
mod operands;
mod primaries;
mod rule;

pub use grammar::{arguments, block, expr, exprs, optional_arguments, value};
pub use rule::Rule;
