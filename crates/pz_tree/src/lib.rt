//! An execution tree: what is left of one process, as nodes that keep what can be done there.
#![tactic(auto)]

mod acting;
mod found;
mod judging;
mod offering;
mod passing;
mod refreshing;
mod standing;
mod starting;
mod summing;
mod tree;

pub use found::InternalAction;
pub use pz_tree_acting::How;
pub use tree::Tree;

// What stands on this names it too, and so has it from here.
pub use pz_term_processes;
pub use pz_tree_acting::pz_tree_regrowing::pz_tree_nodes::pz_tree_standing;
