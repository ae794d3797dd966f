//! The evaluation of an expression of a method of a process, step by step, with units that are counted
//! down and a depth. Effects stay, whatever comes of it.
#![tactic(auto)]

mod basis;
mod beginning;
mod calling;
mod choosing;
mod continuing;
mod control;
mod machine;
mod operators;
mod resuming;

pub use basis::Basis;
pub use control::Finish;
pub use machine::evaluate;
pub use pz_eval_operations;
pub use pz_eval_operations::{pz_classes, pz_eval_rules};
