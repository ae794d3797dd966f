//! Watches over a run that goes on: each point is judged when it comes, and a line is written for each
//! watch that is broken there.
#![tactic(auto)]

mod judging;
mod watching;

pub use watching::Watching;
