//! Stepping sessions: a simulator that takes steps as it is told to, and goes back.
#![tactic(auto)]

mod again;
mod engine;
pub mod laws;
mod refusal;
mod session;
mod step;
mod taking;

pub use engine::Engine;
pub use refusal::BackError;
pub use session::Session;
pub use step::Step;
