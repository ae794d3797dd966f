//! The values of a running model, and the numbers of its classes.
#![tactic(auto)]

mod value;

pub use pz_items::Text;
pub use value::{ClassId, Value};
