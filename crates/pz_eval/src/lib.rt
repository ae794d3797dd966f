//! Evaluation within an allowance: expressions and lists of expressions of the methods of a process,
//! with their effects or without.
#![tactic(auto)]

mod conditions;
mod evaluating;
mod listing;
mod parcels;

pub use conditions::try_condition;
pub use evaluating::{eval, eval_list, try_eval};
pub use parcels::{Parceled, try_parcel};
pub use pz_eval_machine::pz_classes;
pub use pz_eval_machine::pz_eval_rules::{Allowance, Listed, Outcome};
