//! What the rows of tables of pairs need beside a table: offers as words and by a seed, what conditions
//! say, and the pairs of few processes, found by looking at every two offers. It knows no table.
#![tactic(auto)]

mod answers;
mod dice;
mod offering;
mod plain;
mod words;

pub use answers::{Rule, Spot, said, spot_of};
pub use dice::Dice;
pub use offering::{receives, sends};
pub use plain::{Couple, Stand, couples, replaced};
pub use words::{Kind, Wish, wishes};
