//! Models that are closed by a script: with their classes, and with the laws that their runs are the driven
//! runs of the system.
#![tactic(auto)]

mod closing;
pub mod laws;

pub use closing::close_checked;

// What stands on this names these too, and so has them from here.
pub use pz_env::{CloseError, drive_header};
pub use pz_env_joined::pz_env_script;
pub use pz_run_playing;
