use std::alloc::AllocError;

/// Why a text is no script.
#[derive(Clone, Copy, Debug, PartialEq, Eq)]
pub enum ReadScriptError {
    /// The number of the first line that is no entry, counted from 1. It is 1 where the text is empty,
    /// and 100,001 where 100,000 entries are not all.
    Malformed { line: u32 },
    /// Memory ran out.
    NoMemory,
}

impl From<AllocError> for ReadScriptError {
    ghost use Rattle.std.specs.Prelude.{◌≡◌};
    ghost use Rattle.pz_env_script.specs.declared.errors.ReadScriptError.TheVariants.{NoMemory};

    ghost from_gives = { λ _ error. error ≡ NoMemory };

    fn from(_error: AllocError) -> ReadScriptError {
        ReadScriptError::NoMemory
    }
}

/// Why a line is no entry.
#[derive(Clone, Copy)]
pub enum ReadEntryError {
    Malformed,
    /// Memory ran out.
    NoMemory,
}

impl From<AllocError> for ReadEntryError {
    ghost use Rattle.std.specs.Prelude.{◌≡◌};
    ghost use Rattle.pz_env_script.specs.declared.errors.ReadEntryError.TheVariants.{NoMemory};

    ghost from_gives = { λ _ error. error ≡ NoMemory };

    fn from(_error: AllocError) -> ReadEntryError {
        ReadEntryError::NoMemory
    }
}
