//! Which vertices of a graph reach each other.
#![tactic(auto)]

mod numbering;
mod walk;

pub use numbering::components;
