//! The steps of all processes of a model: an action takes place, or time passes.
#![tactic(auto)]

mod beginning;
mod begun;
mod stepping;

pub use stepping::{elapse, step};
