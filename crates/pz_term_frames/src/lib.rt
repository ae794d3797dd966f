//! The frames that stand in a term, and a state without those that stand no longer.
#![tactic(auto)]

mod sweeping;

pub use sweeping::{close_others, close_those, list_frames, sweep};
