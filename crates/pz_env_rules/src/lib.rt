//! The rules of systems that a script drives: definitions, with their laws.
#![tactic(auto)]

pub mod laws;

pub use pz_env_script;
pub use pz_trace::{pz_classes_rules, pz_rules};
