//! Time passes, in the nodes that stand for a process.
#![tactic(auto)]

mod elapsing;
mod turning;
mod waking;

pub use elapsing::{elapse, rests};
pub use pz_tree_refreshing;
