//! What follows for a whole system from what is known of each of its processes: the moment, the offers, the
//! next configuration. No code here runs.
#![tactic(auto)]

pub mod laws;
