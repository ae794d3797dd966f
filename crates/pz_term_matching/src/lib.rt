//! Sends and receives that fit, in order.
#![tactic(auto)]

mod chains;
mod ends;
mod key;
mod matching;
mod turns;

pub use ends::{Pair, Receiver, Sender};
pub use matching::match_ends;
