//! The tree of a system that is closed by a script: definitions, with their laws.
#![tactic(auto)]

pub mod laws;

pub use pz_env_rules::{pz_classes_rules, pz_env_script, pz_rules};
