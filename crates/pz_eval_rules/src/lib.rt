//! The rules of evaluation: what an expression comes to, with how many units and how deep, and what is
//! found within an allowance.
#![tactic(auto)]

mod allowance;
pub mod laws;
mod outcome;

pub use allowance::Allowance;
pub use outcome::{Listed, Outcome};
