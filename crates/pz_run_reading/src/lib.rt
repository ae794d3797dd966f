//! Reading a model: from the bytes of a text to a model that violates no rule and to the processes and
//! wires of its system, or to why the text is refused.
#![tactic(auto)]

mod flat_model;
mod flattening;
pub mod laws;
mod opening;
mod read_error;
mod reading;
mod refusal;
mod size;

pub use flattening::measure;
pub use opening::{open_model, read_open_model};
pub use read_error::ReadModelError;
pub use reading::read_model;
pub use refusal::Refusal;
pub use size::Size;
