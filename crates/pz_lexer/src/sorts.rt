use pz_syntax::TokenKind;
use std::alloc::{AllocError, AllocFailed};

/// What a piece of a text is. Blanks are not kept.
#[derive(Drop)]
pub enum Sort {
    Blank,
    LineComment,
    BlockComment,
    Token(TokenKind),
}

/// A piece at the front of a text: what it is, and how many bytes it has.
#[derive(Drop)]
pub struct Found {
    pub sort: Sort,
    pub len: usize,
}

/// Why a text cannot be cut any further.
#[derive(Clone, Copy, Debug, PartialEq, Eq)]
pub enum Reason {
    BadByte,
    OpenComment,
    OpenString,
    BadNumber,
}

/// Why no piece is read: want of memory, or a refusal, so many bytes on.
#[derive(Clone, Copy, Debug, PartialEq, Eq)]
pub enum Stop {
    NoMemory,
    Refused(Reason, usize),
}

impl From<AllocError> for Stop {
    ghost use Rattle.std.specs.Prelude.{◌≡◌};
    ghost use Rattle.pz_lexer.specs.declared.sorts.Stop.TheVariants.{NoMemory};

    ghost from_gives = { λ _ stop. stop ≡ NoMemory };

    fn from(_error: AllocError) -> Stop {
        Stop::NoMemory
    }
}

impl<T: Drop> From<AllocFailed<T>> for Stop {
    ghost use Rattle.std.specs.Prelude.{◌≡◌};
    ghost use Rattle.pz_lexer.specs.declared.sorts.Stop.TheVariants.{NoMemory};

    ghost from_gives = { λ _ stop. stop ≡ NoMemory };

    fn from(_error: AllocFailed<T>) -> Stop {
        Stop::NoMemory
    }
}
