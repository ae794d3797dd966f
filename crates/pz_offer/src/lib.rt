//! Where something happens in a process, what is wrong there, what a process offers to others, and what
//! a term can do in short.
#![tactic(auto)]

mod end;
mod ends;
pub mod laws;
mod place;
mod summary;
mod trouble;

pub use end::End;
pub use ends::{ReceiveOffer, SendOffer, Verdict};
pub use place::Place;
pub use pz_copy;
pub use pz_copy::{pz_state, pz_value};
pub use summary::Summary;
pub use trouble::Trouble;
