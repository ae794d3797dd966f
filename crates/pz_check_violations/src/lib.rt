//! What a model violates, and which violation is the least.
#![tactic(auto)]

mod least;
mod violation;

pub use least::{lesser, pos_before, sooner};
pub use violation::Violation;
