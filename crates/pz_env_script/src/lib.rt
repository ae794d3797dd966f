//! Scripts of an environment: what it sends to an open system, what it takes from it, and when.
#![tactic(auto)]

mod entry;
mod errors;
pub mod laws;
mod literals;
mod reading;
mod script;

pub use entry::{Entry, Transfer};
pub use errors::ReadScriptError;
pub use script::Script;
