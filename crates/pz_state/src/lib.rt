//! The state of a process: variables, the locals of open frames, and objects, with a journal that
//! leads back to each open mark; and the kinds of faults.
#![tactic(auto)]

mod contents;
mod fault;
mod frames;
mod guesses;
mod journal;
mod object;
mod spots;
mod state;
mod values;

pub use fault::FaultKind;
pub use object::{ARRAY_LIMIT, Object};
pub use pz_value;
pub use state::{FrameId, MakeError, OBJECT_LIMIT, Savepoint, State};
pub use values::nil_values;
