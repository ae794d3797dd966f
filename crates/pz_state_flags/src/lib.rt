//! A flag for each number from 0 on, of which the first that is not set is found in constant time.
#![tactic(auto)]

mod flags;
mod words;

pub use flags::Flags;
