//! A system of nested levels, expanded: what stands in it, in order, and the wires that the channels
//! of its levels make together.
#![tactic(auto)]

mod expansion;
pub mod laws;
mod links;
mod plan;
mod walk;

pub use expansion::{Expansion, Level, Process, Standing, Wire};
pub use links::Links;
pub use plan::{LevelPart, Plan};
pub use walk::expand;
