//! The processes of a model at a moment: what is left of each, and its state.
//!
//! The processes of a model before the first step.
#![tactic(auto)]

mod homes;
mod process;
mod starting;

pub use homes::home_at;
pub use process::Process;
pub use pz_part_actions;
pub use starting::{Started, start};
