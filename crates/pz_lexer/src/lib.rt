//! The tokens and comments of a text.
#![tactic(auto)]

mod bytes;
mod comments;
mod error;
mod heads;
mod items;
mod kept;
mod lexer;
mod numbers;
mod places;
mod quoted;
mod read;
mod sorts;
mod spellings;
mod symbols;
mod words;

pub use error::LexError;
pub use kept::Piece;
pub use lexer::{lex, one_answer, pieces};
pub use places::end_of;
