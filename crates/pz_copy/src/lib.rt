//! Deep copies of values: parcels, which take values out of the state of a process with the objects
//! that they lead to, and put them into another.
#![tactic(auto)]

mod contents;
mod listing;
mod packing;
mod parcel;
mod text;
mod unpacking;

pub use packing::pack;
pub use parcel::Parcel;
pub use pz_state;
pub use pz_state::pz_value;
pub use unpacking::{UnpackError, unpack};
