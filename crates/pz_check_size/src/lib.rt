//! Clusters in clusters, and the size of the system that they make.
#![tactic(auto)]

mod counting;
mod holding;
mod leading_back;
mod nodes;
mod size;
mod totals;

pub use holding::least_holding;
pub use size::oversized;
