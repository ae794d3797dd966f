//! The layout of a model with its comments.
#![tactic(auto)]

mod blanks;
mod formatting;
mod laws;
mod levels;
mod lines;
mod spellings;
mod writing;

pub use formatting::format;
pub use laws::{layouts_read_back, models_read_back, models_stand_apart};
