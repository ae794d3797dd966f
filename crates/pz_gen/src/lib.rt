//! The model of a ring of stations that hand a token on, for any number of stations.
#![tactic(auto)]

mod ring;

pub use ring::make;
