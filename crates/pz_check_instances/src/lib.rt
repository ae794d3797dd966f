//! The instances and channels of a model: the rules C14 and C16 of the checker.
#![tactic(auto)]

mod by_class;
mod channel_ends;
mod given;
mod name_set;
mod needs;
mod open_names;
mod parts;

pub use channel_ends::least_missing_end;
pub use given::least_ill_given;
