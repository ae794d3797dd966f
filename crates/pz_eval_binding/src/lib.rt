//! Values that are bound to variables: of a process, or of a frame of it. What is not there stays so.
#![tactic(auto)]

mod binding;
mod writing;

pub use binding::{set_slot, set_slots};
pub use writing::{write_local, write_variable};
