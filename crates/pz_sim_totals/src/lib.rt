//! A list of totals with their sum: what each process of many can do in short, and what all can do.
#![tactic(auto)]

mod levels;
mod total;
mod totals;

pub use total::Total;
pub use totals::{Found, Totals};
