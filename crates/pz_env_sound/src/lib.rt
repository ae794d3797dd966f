//! The closed tree of a sound system is sound: laws.
#![tactic(auto)]

pub mod laws;
