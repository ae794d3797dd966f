//! The words of a line, and what they are: identifiers of models, and numbers.
#![tactic(auto)]

mod identifiers;
mod numbers;
mod words;

pub use identifiers::is_identifier;
pub use numbers::number;
pub use words::{Words, is_word, split, text_of};
