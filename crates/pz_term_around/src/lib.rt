//! What is around a part that has become another, one form on one level; and the variables of a frame.
#![tactic(auto)]

mod around;
mod slots;

pub use around::{framed, in_abort, in_frame, in_handling, in_interrupt, in_parallel, in_sequence};
pub use pz_part_opening;
pub use slots::{copy_locals, set_inputs};
