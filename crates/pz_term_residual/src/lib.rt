//! How high a term is, and how high it becomes once a part of it has become another, before anything is changed. What is
//! left around a part that has acted, level by level and of the whole process, and the frames that stand no longer.
#![tactic(auto)]

pub mod laws;
mod levels;
mod residual;
mod settling;

pub use residual::stays_low;
pub use settling::settle;
