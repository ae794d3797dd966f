//! Replays: a trace is held against the runs of a model line by line, up to the first line that no run has
//! there.
#![tactic(auto)]

mod fronts;
mod judging;
pub mod laws;
mod lines;
mod moving;
mod refusing;
mod replayed;
mod replaying;

pub use replayed::Replayed;
pub use replaying::replay;
