//! The text of a model in one layout, or why there is none.
#![tactic(auto)]

mod formatting;
pub mod laws;

pub use formatting::layout_text;
