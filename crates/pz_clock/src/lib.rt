//! Local clocks: how far one is behind the clock around it, and since when it stands still.
#![tactic(auto)]

pub mod laws;
mod shift;

pub use shift::Shift;
