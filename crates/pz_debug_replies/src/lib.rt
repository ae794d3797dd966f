//! What a stepping session prints: the replies to its commands.
#![tactic(auto)]

mod advancing;
mod going_back;
pub mod laws;
mod lines;
mod menu;
mod names;
mod offers;
mod replying;
mod sessions;
mod showing;
mod stepping;

pub use replying::reply;
pub use sessions::reply_all;
