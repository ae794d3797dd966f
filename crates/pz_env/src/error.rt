use std::alloc::AllocError;

/// Why a system is not closed.
#[derive(Clone, Copy, Debug, PartialEq, Eq)]
pub enum CloseError {
    /// The number of the first line of the script from which on it cannot drive the system, counted
    /// from 1. It is 1 where there is no room for an environment.
    Refused { line: u32 },
    /// Memory ran out.
    NoMemory,
}

impl From<AllocError> for CloseError {
    ghost use Rattle.std.specs.Prelude.{◌≡◌};
    ghost use Rattle.pz_env.specs.declared.error.CloseError.TheVariants.{NoMemory};

    ghost from_gives = { λ _ error. error ≡ NoMemory };

    fn from(_error: AllocError) -> CloseError {
        CloseError::NoMemory
    }
}
