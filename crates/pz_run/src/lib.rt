//! The program: words and files to a model, its run, and what is printed of it.
#![tactic(auto)]

mod doing;
mod driving;
mod finish;
mod playing;
mod program;
mod replaying;
mod running;
mod starting;
mod watching;

pub use finish::Finish;
pub use program::run_program;
pub use pz_run_output::Status;
pub use pz_run_output::laws::formats_read_back;
