//! The model of a system that is closed by a script has the rules of the system that the script drives.
#![tactic(auto)]

pub mod laws;

pub use pz_env_mimics;
pub use pz_env_mimics::pz_env_script;
