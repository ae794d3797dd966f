//! The parser: from tokens to the tree of a model.
#![tactic(auto)]

mod error;
pub mod laws;
mod models;
mod parser;
mod processes;

pub use error::ParseError;
pub use parser::parse;
