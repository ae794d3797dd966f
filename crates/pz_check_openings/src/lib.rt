//! Opening ends, and is not too large: the rules C23 and C24.
#![tactic(auto)]

mod declaring;
mod each_class;
mod estimate;
mod heavy;
mod in_class;
mod least;
mod lookup;
mod outline;
mod settled;
mod suspects;

pub use least::least_opening;
