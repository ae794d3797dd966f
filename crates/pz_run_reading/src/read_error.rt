use crate::refusal::Refusal;
use pz_bind::pz_classes::BuildError;
use pz_check::CheckError;
use pz_lexer::LexError;
use pz_parser::ParseError;

/// Why a text has no model.
#[derive(Clone, Copy, Debug, PartialEq, Eq)]
pub enum ReadModelError {
    /// Memory ran out. It says nothing of the text.
    NoMemory,
    /// The text is refused.
    Refused(Refusal),
}

impl From<LexError> for ReadModelError {
    ghost use Rattle.std.specs.Prelude.{◌≡◌};
    ghost use Rattle.pz_run_reading.specs.devices.Errors.{of_lexer};

    ghost from_gives = { λ e error. error ≡ of_lexer e };

    fn from(error: LexError) -> ReadModelError {
        match error {
            LexError::NoMemory => ReadModelError::NoMemory,
            LexError::BadByte(at) => ReadModelError::Refused(Refusal::BadByte(at)),
            LexError::OpenComment(at) => ReadModelError::Refused(Refusal::OpenComment(at)),
            LexError::OpenString(at) => ReadModelError::Refused(Refusal::OpenString(at)),
            LexError::BadNumber(at) => ReadModelError::Refused(Refusal::BadNumber(at)),
        }
    }
}

impl From<ParseError> for ReadModelError {
    ghost use Rattle.std.specs.Prelude.{◌≡◌};
    ghost use Rattle.pz_run_reading.specs.devices.Errors.{of_parser};

    ghost from_gives = { λ e error. error ≡ of_parser e };

    fn from(error: ParseError) -> ReadModelError {
        match error {
            ParseError::NoMemory => ReadModelError::NoMemory,
            ParseError::Syntax(at) => ReadModelError::Refused(Refusal::Syntax(at)),
            ParseError::TooNested(at) => ReadModelError::Refused(Refusal::TooNested(at)),
        }
    }
}

impl From<BuildError> for ReadModelError {
    ghost use Rattle.std.specs.Prelude.{◌≡◌};
    ghost use Rattle.pz_run_reading.specs.devices.Errors.{of_classes};

    ghost from_gives = { λ e error. error ≡ of_classes e };

    fn from(error: BuildError) -> ReadModelError {
        match error {
            BuildError::NoMemory => ReadModelError::NoMemory,
            BuildError::Refused(violation) => {
                ReadModelError::Refused(Refusal::Violates(violation))
            }
        }
    }
}

impl From<CheckError> for ReadModelError {
    ghost use Rattle.std.specs.Prelude.{◌≡◌};
    ghost use Rattle.pz_run_reading.specs.devices.Errors.{of_checker};

    ghost from_gives = { λ e error. error ≡ of_checker e };

    fn from(error: CheckError) -> ReadModelError {
        match error {
            CheckError::NoMemory => ReadModelError::NoMemory,
            CheckError::Refused(violation) => {
                ReadModelError::Refused(Refusal::Violates(violation))
            }
        }
    }
}
