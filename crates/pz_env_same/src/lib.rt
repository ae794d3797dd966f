//! Two models with the same rules have the same steps. No code here runs.
#![tactic(auto)]

pub mod laws;
