//! Closes an open system by a script: the tree of the system with its environment; or which scripts cannot
//! drive it, and the first line that is to blame.
#![tactic(auto)]

mod class;
mod closing;
mod ends;
mod error;
mod header;
mod messages;
mod names;
mod refusing;
mod room;
mod standing;
mod statements;

pub use closing::close;
pub use error::CloseError;
pub use header::drive_header;
pub use refusing::refused_line;
