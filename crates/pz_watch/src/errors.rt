use std::alloc::{AllocError, AllocFailed};

/// Why a line is no watch.
#[derive(Clone, Copy, Debug, PartialEq, Eq)]
pub enum ReadWatchError {
    /// It is not the line of a watch.
    Malformed,
    /// Memory ran out.
    NoMemory,
}

impl From<AllocError> for ReadWatchError {
    ghost use Rattle.std.specs.Prelude.{◌≡◌};
    ghost use Rattle.pz_watch.specs.declared.errors.ReadWatchError.TheVariants.{NoMemory};

    ghost from_gives = { λ _ error. error ≡ NoMemory };

    fn from(_error: AllocError) -> ReadWatchError {
        ReadWatchError::NoMemory
    }
}

impl<T: Drop> From<AllocFailed<T>> for ReadWatchError {
    ghost use Rattle.std.specs.Prelude.{◌≡◌};
    ghost use Rattle.pz_watch.specs.declared.errors.ReadWatchError.TheVariants.{NoMemory};

    ghost from_gives = { λ _ error. error ≡ NoMemory };

    fn from(_error: AllocFailed<T>) -> ReadWatchError {
        ReadWatchError::NoMemory
    }
}

/// Why a file is no list of watches.
#[derive(Clone, Copy, Debug, PartialEq, Eq)]
pub enum ReadWatchesError {
    /// The number of the first line that is to blame, counted from 1.
    Refused(u32),
    /// Memory ran out.
    NoMemory,
}

impl From<AllocError> for ReadWatchesError {
    ghost use Rattle.std.specs.Prelude.{◌≡◌};
    ghost use Rattle.pz_watch.specs.declared.errors.ReadWatchesError.TheVariants.{NoMemory};

    ghost from_gives = { λ _ error. error ≡ NoMemory };

    fn from(_error: AllocError) -> ReadWatchesError {
        ReadWatchesError::NoMemory
    }
}
