//! What primitive values answer to a selector: one table, row by row.
#![tactic(auto)]

mod answer;
mod arrays;
mod booleans;
mod chars;
mod every_value;
mod integers;
mod places;
mod spellings;
mod strings;
mod table;

pub use answer::Prim;
pub use strings::STRING_LIMIT;
pub use table::prim;
