//! An action of a process whose term stands in nodes.
#![tactic(auto)]

mod acting;
mod beginning;
mod closing;
mod how;
mod parts;

pub use acting::{act, trial};
pub use how::How;
pub use pz_tree_regrowing;
