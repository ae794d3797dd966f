//! The runs of a driven system are those of a model in which a process stands for the environment.
#![tactic(auto)]

pub mod laws;

pub use pz_env_tree::{pz_classes_rules, pz_env_script, pz_rules};
