//! The plain calls of statements: which they are, with which of them statements begin, and how many
//! statements there are.
#![tactic(auto)]

mod begun;
mod counting;
mod plain;

pub use begun::add_begun;
pub use counting::count_up_to;
pub use plain::add_plain_calls;
