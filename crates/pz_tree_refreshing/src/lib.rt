//! What the parts of a process are asked is asked again, in the nodes that stand for them.
#![tactic(auto)]

mod asking;
mod refreshing;
mod spot;

pub use asking::ask;
pub use pz_part_queries;
pub use pz_tree_nodes;
pub use refreshing::refresh;
pub use spot::Spot;
