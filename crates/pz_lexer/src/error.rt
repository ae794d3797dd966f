use pz_syntax::Pos;
use std::alloc::{AllocError, AllocFailed};

/// Why a text has no tokens, and where.
#[derive(Clone, Copy, Debug, PartialEq, Eq)]
pub enum LexError {
    /// Memory ran out.
    NoMemory,
    /// A byte that begins no token, or the `\` of an unknown escape.
    BadByte(Pos),
    /// The `/*` of a comment without end.
    OpenComment(Pos),
    /// The opening quote of a string or character that an LF or the end cuts off, or of a character
    /// that has not exactly one item.
    OpenString(Pos),
    /// The first digit of an integer past 2^63 - 1, or of a number that a letter or `_` follows.
    BadNumber(Pos),
}

impl From<AllocError> for LexError {
    ghost use Rattle.std.specs.Prelude.{◌≡◌};
    ghost use Rattle.pz_lexer.specs.declared.error.LexError.TheVariants.{NoMemory};

    ghost from_gives = { λ _ error. error ≡ NoMemory };

    fn from(_error: AllocError) -> LexError {
        LexError::NoMemory
    }
}

impl<T: Drop> From<AllocFailed<T>> for LexError {
    ghost use Rattle.std.specs.Prelude.{◌≡◌};
    ghost use Rattle.pz_lexer.specs.declared.error.LexError.TheVariants.{NoMemory};

    ghost from_gives = { λ _ error. error ≡ NoMemory };

    fn from(_error: AllocFailed<T>) -> LexError {
        LexError::NoMemory
    }
}
