//! The shapes of nodes, each of which has others below it, and what is so of them when some are changed,
//! whatever a node holds.
#![tactic(auto)]

mod dropping;
mod kids;
pub mod laws;
mod node;

pub use dropping::drop_part;
pub use kids::Kids;
pub use node::{Node, kid_at};
