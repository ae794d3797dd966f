//! What the parts of a process are asked at a moment, with no effect: tests, the times of delays, the
//! parcels of sends and the conditions of receives; and what the outcome of an evaluation means.
//!
//! The receive of a pair: the part of a term at a place, and what a receive says to a parcel.
#![tactic(auto)]

mod asking;
mod judging;
pub mod laws;
mod meanings;
mod parts;
mod standpoint;

pub use asking::{allowance, ask_parcel, ask_test, ask_time};
pub use judging::judge;
pub use meanings::{duration, truth, truth_of, value_or_trouble, values_or_trouble};
pub use parts::part_at;
pub use pz_eval;
pub use pz_eval::pz_classes;
pub use standpoint::Standpoint;
