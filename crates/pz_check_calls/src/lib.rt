//! Methods that call each other: which calls lead back to where they stand, and how many statements
//! a method opens as.
#![tactic(auto)]

mod counting;
mod graph;
mod rounds;

pub use counting::{MANY, is_large, totals};
pub use graph::{Call, Method};
pub use rounds::least_round;
