//! What becomes of the nodes of a term once a part of it has become another; how high the term becomes, before anything
//! is changed.
#![tactic(auto)]

mod beside;
mod clocks;
mod forms;
mod frames;
mod keeping;
mod nodes;
mod opening;
mod outlining;
mod reading;
mod regrowing;
mod shifts;

pub use outlining::stays_low;
pub use pz_tree_nodes;
pub use regrowing::regrow;
