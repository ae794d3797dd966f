//! Copies of checked models and of nets, made by building them again.
#![tactic(auto)]

mod copying;

pub use copying::{copy_checked, copy_net};
