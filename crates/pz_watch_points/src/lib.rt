//! The points of a run that a watch sees, made of the events of the run.
#![tactic(auto)]

pub mod laws;
mod names;
mod spots;

pub use pz_trace;
pub use spots::{passing, spot};
