//! The rules of execution: what is left of a process, what it can do, what that leaves, how time
//! passes, and the runs of a model. The types that simulators share.
#![tactic(auto)]

mod action;
pub mod laws;
mod limits;
mod moment;
mod rest;
mod term;

pub use action::{Action, Kind};
pub use limits::{Edition, Limits};
pub use moment::Moment;
pub use pz_bind_rules::{pz_classes_code, pz_classes_rules, pz_items, pz_syntax, pz_value};
pub use pz_eval_rules;
pub use pz_offer;
pub use pz_offer::{pz_copy, pz_state};
pub use rest::Rest;
pub use term::Term;
