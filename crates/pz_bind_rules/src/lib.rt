//! What a model's system is: its processes in their order, their values, and the wires between them.
//! Definitions and their laws; nothing here runs.
#![tactic(auto)]

pub mod laws;

pub use pz_classes_rules;
pub use pz_classes_rules::{pz_check_violations, pz_classes_code, pz_items, pz_syntax, pz_value};
