//! The active sends and receives of a term, in the nodes that stand for it.
#![tactic(auto)]

mod forms;
mod offers;
mod receiving;
mod sending;

pub use offers::{ActiveReceive, ActiveSend};
pub use receiving::active_receives;
pub use sending::active_sends;
