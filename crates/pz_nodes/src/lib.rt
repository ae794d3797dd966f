//! Nodes under keys, each access counted.
#![tactic(auto)]

mod nodes;
mod steps;

pub use nodes::{Key, Nodes};
pub use steps::Steps;
