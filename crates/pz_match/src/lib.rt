//! The pairs of sends and receives that fit, kept while the offers of processes come and go.
#![tactic(auto)]

mod again;
mod altering;
mod asking;
mod finding;
mod groups;
mod hearing;
mod judge;
mod kept;
mod offering;
mod offers;
mod pairs;
mod places;
mod planning;
mod renewing;
mod rows;
mod seeking;
mod sharing;
mod skipping;
mod tallying;
mod updating;
mod users;

pub use judge::Judge;
pub use offers::{Receiver, Sender};
pub use pairs::Pairs;
