//! The stepping session as a program: words and files to the replies that are printed.
#![tactic(auto)]

mod asking;
mod debugging;
mod engine;
mod limits;
mod printing;
mod program;
mod refusing;
mod sessions;
mod status;

pub use program::run_debug;
pub use status::DebugStatus;
