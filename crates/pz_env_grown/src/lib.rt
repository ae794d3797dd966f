//! Models that have grown out of others: definitions, with their laws.
#![tactic(auto)]

pub mod laws;
