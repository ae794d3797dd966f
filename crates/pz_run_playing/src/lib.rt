//! Runs of the simulator that are chosen, told line by line, by one line, or with what there is to choose
//! from at the end.
#![tactic(auto)]

mod choosing;
mod deciding;
mod finale;
mod hearing;
pub mod laws;
mod lines;
mod listening;
mod playing;
mod runs;
mod telling;

pub use finale::{Finale, Judged};
pub use pz_rules;
pub use runs::{play_menu, play_summary, play_trace, play_under, play_watched};
