//! What an acting part of a process becomes: by itself, by handing over a parcel, or by taking one.
#![tactic(auto)]

mod calling;
mod evaluating;
mod handing;
mod opening;
mod parts;
mod performing;
mod standing;
mod taking;
mod testing;

pub use handing::hand;
pub use parts::{done_by, pos_of};
pub use performing::perform;
pub use pz_part_queries;
pub use pz_term_around::pz_part_opening;
pub use standing::at_home;
pub use taking::take;
