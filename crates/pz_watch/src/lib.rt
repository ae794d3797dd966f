//! Watches: formulas over the points of a run, judged point by point while it goes on.
#![tactic(auto)]

mod atoms;
mod building;
mod errors;
mod files;
mod formulas;
pub mod laws;
mod monitor;
mod operators;
mod reading;
mod spot;
mod watch;
mod window;

pub use atoms::Atom;
pub use errors::{ReadWatchError, ReadWatchesError};
pub use files::read_watches;
pub use monitor::Monitor;
pub use spot::{Event, Spot};
pub use watch::Watch;
pub use window::Window;
