//! The checker: a model is sound, or has a least violation.
#![tactic(auto)]

mod checking;
mod error;
mod opening;
mod size;

pub use checking::check;
pub use error::CheckError;
pub use opening::check_opening;
