//! Where a program's bytes come from and where they go.
//!
//! [`Files`] and [`Sink`] are what a program sees of the outside. Their contracts say what an
//! answer means and when it may come, whether or not the outside tells what it holds. [`MemFiles`],
//! [`FailingFiles`], [`NarrowFiles`], [`RoomySink`] and [`NarrowSink`] stand for it in proofs and
//! tests. [`OsFiles`] and [`OsSink`] are the real thing, in a few lines over std that tell nothing of
//! what the system holds.
//!
//! Text that is written to a sink piece by piece: what was written, also where that had to stop.
#![tactic(auto)]

mod answers;
mod failing;
pub mod laws;
mod mem;
mod names;
mod narrow;
mod os;
mod outside;
mod roomy;
mod whole;
mod writing;

pub use failing::FailingFiles;
pub use mem::MemFiles;
pub use names::Names;
pub use narrow::{NarrowFiles, NarrowSink};
pub use os::{OsFiles, OsSink};
pub use outside::{Files, Got, Opened, Put, Sink};
pub use roomy::RoomySink;
pub use whole::{ReadError, WriteError, read_all, write_all};
pub use writing::{Halt, put};
