//! Lists of numbers that a table of pairs keeps: numbers with their sum, and increasing lists.
#![tactic(auto)]

mod counts;
mod lists;
mod numbers;
mod shares;

pub use counts::Counts;
pub use lists::Lists;
pub use numbers::{Numbers, below};
pub use shares::{Part, Share, Shares};
